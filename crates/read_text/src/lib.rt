// Bytes and numbers of a sheet.
#![tactic(auto)]

ghost use Rattle.std.specs.Prelude.{◌≡◌, ◌<◌};
ghost use Rattle.model.specs.{Text.find, Number.digits_to, Number.up_to, Number.from_one, Number.negative, Number.positive, Number.number, Refusal.parsed};
ghost use Rattle.model_text.specs.Found.{starts};

use model::{GREATEST_NUMBER, LEAST_NUMBER, Refusal};

// The place of the first c, or the length where there is none. Two bytes at a time: most of a sheet's bytes are passed here.
// Called and not inlined, for the read-only memory: it stands at many places.
#[inline(never)]
pub fn find_byte(s: &[u8], c: u8) -> usize
    ensures { result ≡ find c s.now }
{
    let mut i = 0;
    while i + 1 < s.len() {
        if s[i] == c {
            return i;
        }
        if s[i + 1] == c {
            return i + 1;
        }
        i += 2;
    }
    if i < s.len() {
        if s[i] == c {
            return i;
        }
        return i + 1;
    }
    i
}

// The library's test of a prefix would take 1.7 KB more of the run's read-only memory, which has a bound.
pub fn starts_with(t: &[u8], p: &[u8]) -> bool
    ensures { result ≡ starts p.now t.now }
{
    if t.len() < p.len() {
        return false;
    }
    for (i, &b) in p.iter().enumerate() {
        if t[i] != b {
            return false;
        }
    }
    true
}

// The value of digits, at most m. It stops at the first digit that takes it past m, so that no length of text overflows.
fn digits_up_to(s: &[u8], m: u64) -> Result<u64, Refusal>
    requires { m < 4294967296 }
    ensures { parsed result ≡ digits_to m 0 s.now }
{
    let mut a: u64 = 0;
    for &b in s {
        if b < b'0' || b'9' < b {
            return Err(Refusal::BadNumber);
        }
        a = a * 10 + u64::from(b - b'0');
        if m < a {
            return Err(Refusal::BadNumber);
        }
    }
    Ok(a)
}

// A number from 0 to m.
pub fn up_to(s: &[u8], m: u64) -> Result<u64, Refusal>
    requires { m < 4294967296 }
    ensures { parsed result ≡ up_to m s.now }
{
    if s.is_empty() {
        return Err(Refusal::BadNumber);
    }
    if 1 < s.len() && s[0] == b'0' {
        return Err(Refusal::BadNumber);
    }
    digits_up_to(s, m)
}

// A number from 1 to m.
pub fn from_one(s: &[u8], m: u64) -> Result<u64, Refusal>
    requires { m < 4294967296 }
    ensures { parsed result ≡ from_one m s.now }
{
    let n = up_to(s, m)?;
    if n == 0 {
        return Err(Refusal::BadNumber);
    }
    Ok(n)
}

// What follows a minus sign.
fn negative_of(s: &[u8]) -> Result<i32, Refusal>
    ensures { parsed result ≡ negative s.now }
{
    let n = from_one(s, LEAST_NUMBER)?;
    Ok((0 - n as i64) as i32)
}

fn positive_of(s: &[u8]) -> Result<i32, Refusal>
    ensures { parsed result ≡ positive s.now }
{
    let n = up_to(s, GREATEST_NUMBER)?;
    Ok(n as i32)
}

// A number of the full range.
pub fn number_of(s: &[u8]) -> Result<i32, Refusal>
    ensures { parsed result ≡ number s.now }
{
    if s.is_empty() {
        return Err(Refusal::BadNumber);
    }
    if s[0] == b'-' {
        return negative_of(&s[1..]);
    }
    positive_of(s)
}
