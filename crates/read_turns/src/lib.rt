// The line `turns`, its letters tested and copied in one pass, and nothing after it.
#![tactic(auto)]

ghost use Rattle.std.specs.Prelude.{◌≡◌, ◌+◌, ◌<◌, length};
ghost use Rattle.model.specs.Form.{Fits, third_of};
ghost use Rattle.read_turns.specs.Turns.{LetterKnown, LettersCopied, TurnsRead};

use model::{Fault, Form, LETTER_CAPACITY, Refusal};
use read_line::{Mark, first_line, on_line};
use read_text::find_byte;

fn is_letter(b: u8, form: Form, third: u8) -> bool
    requires { Fits form × (third ≡ third_of form) }
    ensures { LetterKnown form b result }
{
    (b == form.low) | (b == form.high) | (b == third)
}

// What follows `turns=`, copied to the front of an array as it is tested; how many letters there are. No byte decides what is done next, so that the compiler tests and
// copies many in one step.
fn copy_letters(s: &[u8], form: Form, letters: &mut [u8; LETTER_CAPACITY]) -> Result<usize, Refusal>
    requires { Fits form }
    ensures { LettersCopied form s.now result letters.new }
{
    if form.letters < s.len() {
        return Err(Refusal::TooMany);
    }
    if s.len() == 0 {
        return Err(Refusal::BadLetters);
    }
    let third = form.third();
    let mut known = true;
    for (i, &b) in s.iter().enumerate() {
        known = known & is_letter(b, form, third);
        letters[i] = b;
    }
    if !known {
        return Err(Refusal::BadLetters);
    }
    Ok(s.len())
}

// The line `turns` at the start of s, and nothing after it, as letters at the front of an array; how many there are.
// Called and not inlined: each call's result has a place of its own on the stack of the function that it is inlined
// into, so that all phases of reading would lie there at once.
#[inline(never)]
pub fn read_turns(
    s: &[u8],
    form: Form,
    first: u32,
    letters: &mut [u8; LETTER_CAPACITY],
) -> Result<(usize, Mark), Fault>
    requires { Fits form × (first + length s.now < 4294967296) }
    ensures { TurnsRead form s.now first result letters.new }
{
    let Some((v, e)) = first_line(s, b"turns=") else {
        return Err(Fault {
            refusal: Refusal::Misplaced,
            line: first,
        });
    };
    let count = on_line(copy_letters(&s[v..e], form, letters), first)?;
    let rest = &s[e + 1..];
    if find_byte(rest, b'\n') < rest.len() {
        return Err(Fault {
            refusal: Refusal::Misplaced,
            line: first + 1,
        });
    }
    let next = Mark {
        line: first + 1,
        at: e + 1,
    };
    Ok((count, next))
}
