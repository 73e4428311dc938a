// The line that refusal 2 names, the first line of a text by its name, and what the readers of lines answer.
#![tactic(auto)]

ghost use Rattle.std.specs.Prelude.{◌≡◌, ◌&&◌, not};
ghost use lib.{Dec.leb, ListN.length};
ghost use Rattle.model.specs.{Text.between as Text·between, Text.class_of, Sheet.closed};
ghost use Rattle.model_text.specs.Found.{forbids, spoilt_line};
ghost use Rattle.read_line.specs.Phase.{FirstLine, faulted};

use model::{Fault, Refusal};
use read_text::{find_byte, starts_with};

// The class that a scan asks for.
const FORBIDDEN_CLASS: u8 = 10;

// The bytes that a scan tests at once.
const AT_ONCE: usize = 16;

// Where the next line starts: its number, and its place in the text.
#[derive(Clone, Copy)]
pub struct Mark {
    pub line: u32,
    pub at: usize,
}

// What was read, or its refusal as the fault of a line.
pub fn on_line<T>(read: Result<T, Refusal>, line: u32) -> Result<T, Fault>
    ensures { result ≡ faulted line read }
{
    match read {
        Ok(value) => Ok(value),
        Err(refusal) => Err(Fault { refusal, line }),
    }
}

fn between(lo: u8, hi: u8, b: u8) -> bool
    ensures { result ≡ Text·between lo hi b }
{
    lo <= b && b <= hi
}

// The class of a byte, numbered from 0 in document 01's order, by tests on ranges. The bytes outside of the largest range come first: of a caller that asks for the forbidden ones alone, a
// compiler keeps these tests and no others.
pub fn class_of(b: u8) -> u8
    ensures { result ≡ class_of b }
{
    if !between(b' ', b'~', b) {
        if b == b'\n' {
            return 6;
        }
        return FORBIDDEN_CLASS;
    }
    if between(b'0', b'9', b) {
        return 0;
    }
    if b == b'-' {
        return 1;
    }
    if b == b',' {
        return 2;
    }
    if b == b':' {
        return 3;
    }
    if b == b'=' {
        return 4;
    }
    if b == b' ' {
        return 5;
    }
    if between(b'a', b'z', b) {
        return 7;
    }
    if between(b'A', b'Z', b) {
        return 8;
    }
    9
}

// Whether the last byte is a line feed.
fn is_closed(s: &[u8]) -> bool
    ensures { result ≡ closed s.now }
{
    !s.is_empty() && s[s.len() - 1] == b'\n'
}

// Whether one of these bytes is forbidden. What a byte is does not decide which comes next, so that a compiler tests many of them in one step.
fn has_forbidden(s: &[u8]) -> bool
    ensures { result ≡ forbids s.now }
{
    let mut found = false;
    for &b in s {
        if class_of(b) == FORBIDDEN_CLASS {
            found = true;
        }
    }
    found
}

// Whether there are bytes enough to test so many at once, and none is forbidden. The last ones are tested together too, even if some of them were before.
fn all_allowed(s: &[u8]) -> bool
    ensures { result ≡ leb 16 (length s.now) && not (forbids s.now) }
{
    let n = s.len();
    if n < AT_ONCE {
        return false;
    }
    let mut i = 0;
    while i < n {
        let a = i.min(n - AT_ONCE);
        if has_forbidden(&s[a..a + AT_ONCE]) {
            return false;
        }
        i = a + AT_ONCE;
    }
    true
}

// The line that refusal 2 names, or 0 where it does not apply, byte by byte.
fn fault_line(s: &[u8]) -> usize
    ensures { result ≡ spoilt_line s.now }
{
    let mut line: usize = 1;
    for (i, &b) in s.iter().enumerate() {
        if class_of(b) == FORBIDDEN_CLASS {
            return line;
        }
        if b == b'\n' {
            if s.len() <= i + 1 {
                return 0;
            }
            line += 1;
        }
    }
    line
}

// The line that refusal 2 names, or 0 where it does not apply: that of the first forbidden byte, or the one after the last line feed where the last byte is
// none. Lines are counted only where there is a fault, or little text.
pub fn spoilt_line(s: &[u8]) -> usize
    ensures { result ≡ spoilt_line s.now }
{
    if is_closed(s) {
        if all_allowed(s) {
            return 0;
        }
    }
    fault_line(s)
}

// What follows an equals sign on the first line, from a place to that of its line feed, where the line has this name;
// none where it is another line, or there is none. The name is given with its equals sign. It is looked for before the
// line feed, so that a line of another name is not read to its end.
// Called and not inlined, for the read-only memory: it stands at many places.
#[inline(never)]
pub fn first_line(t: &[u8], name: &[u8]) -> Option<(usize, usize)>
    ensures { FirstLine name.now t.now result }
{
    if !starts_with(t, name) {
        return None;
    }
    let k = name.len();
    let u = &t[k..];
    let e = find_byte(u, b'\n');
    if u.len() <= e {
        return None;
    }
    Some((k, k + e))
}
