// The first lines of a sheet: `sheet` and `keys`, which hold one number, and the `secret` lines.
#![tactic(auto)]

ghost use Rattle.std.specs.Prelude.{◌+◌, ◌<◌, ◌≤◌, length};
ghost use Rattle.model.specs.Stored.{key_capacity};
ghost use Rattle.read_head.specs.Head.{NumberRead, SecretsRead};

use model::{Fault, Form, KEY_CAPACITY, KeySlot, Refusal, StoredJob};
use read_line::{Mark, first_line, on_line};
use read_secret::read_secret;
use read_text::from_one;

// The keys, and the least one that a further `secret` line may name.
#[derive(Clone, Copy)]
pub struct Secrets {
    pub least: u64,
    pub slots: [KeySlot; KEY_CAPACITY],
}

// A line that holds a number from 1 to the limit, and has the number first.
// Called and not inlined, for the read-only memory: it stands at many places.
#[inline(never)]
pub fn number_line(s: &[u8], name: &[u8], limit: u64, first: u32) -> Result<(u64, Mark), Fault>
    requires { (1 ≤ limit) × (limit < 4294967296) × (first + length s.now < 4294967296) }
    ensures { NumberRead name.now limit s.now first result }
{
    let Some((v, e)) = first_line(s, name) else {
        return Err(Fault {
            refusal: Refusal::Misplaced,
            line: first,
        });
    };
    let n = on_line(from_one(&s[v..e], limit), first)?;
    let next = Mark {
        line: first + 1,
        at: e + 1,
    };
    Ok((n, next))
}

// The `secret` lines at the start of s, of which the first has the number first.
// Called and not inlined: each call's result has a place of its own on the stack of the function that it is inlined
// into, so that all phases of reading would lie there at once.
#[inline(never)]
pub fn read_secrets(s: &[u8], form: Form, keys: u64, first: u32) -> Result<(Secrets, Mark), Fault>
    requires { (1 ≤ keys) × (keys ≤ key_capacity) × (first + length s.now < 4294967296) }
    ensures { SecretsRead form keys s.now first result }
{
    let mut slots = StoredJob::open_keys();
    let mut least: u64 = 0;
    let mut line = first;
    let mut at: usize = 0;
    loop {
        let t = &s[at..];
        let Some((v, e)) = first_line(t, b"secret=") else {
            return Ok((Secrets { least, slots }, Mark { line, at }));
        };
        let (k, key) = on_line(read_secret(&t[v..e], form.owners, keys, least), line)?;
        slots[k as usize] = KeySlot { key };
        least = k + 1;
        line += 1;
        at = at + e + 1;
    }
}
