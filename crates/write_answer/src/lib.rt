// The numbers of an answer, and their bytes.
#![tactic(auto)]

ghost use Rattle.std.specs.Prelude.{◌≡◌, ◌+◌, ◌≤◌, length};
ghost use Rattle.model.specs.{Placed.placed, Answer.numbers_of, Answer.answer_as, Answer.le32, Answer.all_le32, Answer.bytes_for, Written.low_numbers, Written.told};
ghost use Rattle.write_answer.specs.Told.{answer_by};

use model::{Ended, Fault, NUMBERS, TEXT_NUMBERS, TextAnswer, TextFault};

// The seven numbers of a run's answer. A refusal is any number with any line.
#[tactic(auto, unfolding(model::specs::Answer::numbers_of))]
pub fn numbers(run: Result<Ended, (u32, u32)>) -> [u32; NUMBERS]
    ensures { result ≡ numbers_of (answer_by run) }
{
    match run {
        Ok(Ended { ending, counts }) => {
            [
                u32::from(ending),
                0,
                counts.positions,
                counts.steps,
                counts.bytes,
                counts.taken,
                counts.clamped,
            ]
        }
        Err((number, line)) => [number, line, 0, 0, 0, 0, 0],
    }
}

// The same where a run is refused with a fault.
pub fn run_numbers(run: Result<Ended, Fault>) -> [u32; NUMBERS]
    ensures { result ≡ numbers_of (answer_as run) }
{
    match run {
        Ok(ended) => numbers(Ok(ended)),
        Err(Fault { refusal, line }) => numbers(Err((u32::from(refusal), line))),
    }
}

// The three numbers of the answer to the writing of a text, each as much of it as 32 bits hold.
pub fn text_numbers(a: TextAnswer) -> [u32; TEXT_NUMBERS]
    ensures { result ≡ low_numbers a }
{
    [a.number, (a.line % 4294967296) as u32, a.bytes]
}

// What the writing of a text answers.
fn told(wrote: Result<u32, TextFault>) -> TextAnswer
    ensures { result ≡ told wrote }
{
    match wrote {
        Ok(bytes) => TextAnswer {
            number: 0,
            line: 0,
            bytes,
        },
        Err(TextFault { refusal, line }) => TextAnswer {
            number: u32::from(refusal),
            line,
            bytes: 0,
        },
    }
}

// Its three numbers.
pub fn written_numbers(wrote: Result<u32, TextFault>) -> [u32; TEXT_NUMBERS]
    ensures { result ≡ low_numbers (told wrote) }
{
    text_numbers(told(wrote))
}

// Stores x in four bytes from the place at on, low byte first.
fn put32(dst: &mut [u8], at: usize, x: u32)
    requires { at + 4 ≤ length dst.old }
    ensures { dst.new ≡ placed dst.old at (le32 x) }
{
    dst[at..at + 4].copy_from_slice(&x.to_le_bytes());
}

// Stores the numbers one after the other, in a memory of just their length.
pub fn put_numbers(dst: &mut [u8], ns: &[u32])
    requires { length dst.old ≡ bytes_for (length ns.now) }
    ensures { dst.new ≡ all_le32 ns.now }
{
    for i in 0..ns.len() {
        put32(dst, 4 * i, ns[i]);
    }
}
