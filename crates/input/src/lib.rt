// What a program is given: the text, from a file that its last argument names or else from standard input, and numbers
// before that; and what it says where it is not given that.
#![tactic(auto)]

ghost use Rattle.std.specs.Prelude.{◌≡◌, ◌≤◌, length, IfOk};
ghost use Rattle.input.specs.Text.{ReadsWhole};
ghost use Rattle.input.specs.declared.TextError.TheVariants.{Failed};

use model::Refusal;
use read_text::up_to;
use std::env::FillError;
use std::fs::File;
use std::io::Read;
use std::rt::{Env, Files};
use std::{io, str};

// The most bytes of an argument that is looked at. No path has so many.
const ARGUMENT_BYTES: usize = 4096;

// Zeros, for a text of at most 262,144 bytes: one byte more, by which a longer one is told. The contract gives only
// the length, since the proof of a caller would not hold so many zeros.
pub fn buffer() -> [u8; 262145]
    ensures { 262145 ≡ length result }
{
    [0u8; 262145]
}

// Why a program has no text: a read failed, the text does not end within the buffer, or there are other arguments than
// the program takes.
#[derive(Clone, Copy, Debug, PartialEq, Eq)]
pub enum TextError {
    Failed,
    TooLong,
    Misused,
}

impl From<io::Error> for TextError {
    ghost from_gives = { λ _ e. e ≡ Failed };

    fn from(_: io::Error) -> TextError {
        TextError::Failed
    }
}

// A program as it speaks of itself: its name, what its text is, and the arguments that it takes.
#[derive(Clone, Copy)]
pub struct Program<'a> {
    pub name: &'a str,
    pub text: &'a str,
    pub arguments: &'a str,
}

impl Program<'_> {
    // Says on standard error why the program has no text.
    pub fn complain(&self, rt: &impl Eprint, why: TextError) -> io::Result<()> {
        let Program {
            name,
            text,
            arguments,
        } = *self;
        match why {
            TextError::Failed => eprintln!(rt; "{name}: the {text} could not be read"),
            TextError::TooLong => eprintln!(rt; "{name}: the {text} has more than 262,144 bytes"),
            TextError::Misused => eprintln!(rt; "{name}: usage: {name} {arguments}"),
        }
    }
}

// Reads all of a text that is shorter than the buffer.
fn read_shorter<R: Read>(reader: &mut R, buf: &mut [u8]) -> Result<usize, TextError>
    ensures within { IfOk result (λ n. n ≤ length buf.new) }
    ensures bytes { ReadsWhole (R.remaining reader.old) (R.remaining reader.new) result buf.new }
{
    let n = terminal::read_all(reader, buf)?;
    if n < buf.len() {
        Ok(n)
    } else {
        Err(TextError::TooLong)
    }
}

fn read_named<R: Env + Files>(rt: &R, buf: &mut [u8], at: usize) -> Result<usize, TextError>
    ensures { IfOk result (λ n. n ≤ length buf.new) }
{
    let mut path = [0u8; ARGUMENT_BYTES];
    let Ok(n) = rt.arg(at, &mut path) else {
        return Err(TextError::Failed);
    };
    let Ok(path) = str::from_utf8(&path[..n]) else {
        return Err(TextError::Failed);
    };
    let mut file = File::open(rt, path)?;
    read_shorter(&mut file, buf)
}

// The arguments end before the first that is not there.
fn argument_count(rt: &impl Env) -> usize {
    (0..usize::MAX)
        .find(|i| matches!(rt.arg(*i, &mut []), Err(FillError::NotPresent)))
        .unwrap_or(usize::MAX)
}

// The text of a program, whose argument at this place names a file or is not there: so many bytes of the buffer. The
// first of the arguments, at the place 0, is the program's own name.
pub fn text_argument<R: Env + Files + io::Input>(
    rt: &R,
    buf: &mut [u8],
    at: usize,
) -> Result<usize, TextError>
    ensures { IfOk result (λ n. n ≤ length buf.new) }
{
    match argument_count(rt).checked_sub(at) {
        Some(0) => read_shorter(&mut rt.reader(), buf),
        Some(1) => read_named(rt, buf, at),
        _ => Err(TextError::Misused),
    }
}

// The argument at a place, a number of at most nine digits as a sheet has them; a bad number where it is missing,
// cannot be had, or is no such number. Which bytes an argument has no contract can say.
pub fn number_argument(rt: &impl Env, at: usize) -> Result<u32, Refusal>
    ensures { IfOk result (λ n. n ≤ 999999999) }
{
    let mut word = [0u8; ARGUMENT_BYTES];
    let Ok(n) = rt.arg(at, &mut word) else {
        return Err(Refusal::BadNumber);
    };
    let number = up_to(&word[..n], 999999999)?;
    Ok(number as u32)
}
