// One `key:value`, as a `secret` line holds one and a `msg` line several.
#![tactic(auto)]

ghost use Rattle.std.specs.Prelude.{◌≡◌, ◌<◌, ◌≤◌};
ghost use Rattle.model.specs.{Pair.pair, Refusal.parsed};

use model::Refusal;
use read_text::{find_byte, number_of, up_to};

// One `key:value`, its key at least next.
pub fn read_pair(p: &[u8], keys: u64, next: u64) -> Result<(u64, i32), Refusal>
    requires { (1 ≤ keys) × (keys < 4294967296) }
    ensures { parsed result ≡ pair keys next p.now }
{
    let e = find_byte(p, b':');
    if p.len() <= e {
        return Err(Refusal::BadNumber);
    }
    let k = up_to(&p[..e], keys - 1)?;
    if k < next {
        return Err(Refusal::KeyOrder);
    }
    let v = number_of(&p[e + 1..])?;
    Ok((k, v))
}
