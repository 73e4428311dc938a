// What a `secret` line says: a key, a dummy and, in the form that names them, an owner.
#![tactic(auto)]

ghost use Rattle.std.specs.Prelude.{◌<◌, ◌≤◌, ◌≡◌, true};
ghost use Rattle.model.specs.{Head.owner, Head.secret, Refusal.parsed};

use model::{Key, Owner, Refusal};
use read_pair::read_pair;
use read_text::find_byte;

// The owner that a text names.
fn owner_of(s: &[u8]) -> Result<Owner, Refusal>
    ensures { parsed result ≡ owner s.now }
{
    match s {
        b"A" => Ok(Owner::A),
        b"B" => Ok(Owner::B),
        _ => Err(Refusal::BadOwner),
    }
}

// What follows `secret=` in a form of two owners: the key, and that it is secret, with its owner and its dummy.
fn read_owned(p: &[u8], keys: u64, next: u64) -> Result<(u64, Key), Refusal>
    requires { (1 ≤ keys) × (keys < 4294967296) }
    ensures { parsed result ≡ secret true keys next p.now }
{
    let a = find_byte(p, b':');
    if p.len() <= a {
        return Err(Refusal::BadNumber);
    }
    let t = &p[a + 1..];
    let b = find_byte(t, b':');
    if t.len() <= b {
        return Err(Refusal::BadNumber);
    }
    let (k, dummy) = read_pair(&p[..a + 1 + b], keys, next)?;
    let owner = owner_of(&t[b + 1..])?;
    Ok((k, Key::Secret(owner, dummy)))
}

// What follows `secret=`, in a form of one owner or of two.
pub fn read_secret(p: &[u8], owners: bool, keys: u64, next: u64) -> Result<(u64, Key), Refusal>
    requires { (1 ≤ keys) × (keys < 4294967296) }
    ensures { parsed result ≡ secret owners keys next p.now }
{
    if owners {
        return read_owned(p, keys, next);
    }
    let (k, dummy) = read_pair(p, keys, next)?;
    Ok((k, Key::Secret(Owner::A, dummy)))
}
