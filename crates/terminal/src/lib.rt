// What the programs read from standard input and print.
#![tactic(auto)]

ghost use Rattle.std.specs.Prelude.{◌++◌, ◌≤◌, length, take, OnOk, IfOk};
ghost use Rattle.std.specs.Io.KnownBytes.{Appends};
ghost use Rattle.std.specs.Fn.{FnOnceReturnsAtMut};
ghost use Rattle.model.specs.{Answer.report, Answer.spaced, Answer.bytes_written, Decimal.natural, Written.written, Written.told};
ghost use Rattle.terminal.specs.Input.{Reads};
ghost use Rattle.terminal.specs.Printed.{line_of, answer_line, text_bytes, text_of, said_of};

use model::{NUMBERS, TEXT_NUMBERS, TextFault};
use std::io;
use std::io::{Read, Write};
use write_answer::written_numbers;

// Reads until the buffer is full or the input ends, however few bytes a read gives, and answers how many bytes it has
// read. A read that fails is told apart from the end.
pub fn read_all<R: Read>(reader: &mut R, buf: &mut [u8]) -> io::Result<usize>
    ensures within { IfOk result (λ n. n ≤ length buf.new) }
    ensures bytes { Reads (R.remaining reader.old) (R.remaining reader.new) result buf.new }
{
    let mut done = 0;
    while done < buf.len() {
        match reader.read(&mut buf[done..])? {
            0 => break,
            n => done += n,
        }
    }
    Ok(done)
}

#[tactic(auto, using(crate::proofs::Numbers::natural_decimal))]
fn print_number<W: Write>(to: &mut W, x: u32) -> io::Result<()>
    ensures { OnOk result (Appends (W.contents to.old) (W.contents to.new) (natural x)) }
{
    write!(to, "{x}")
}

// The first bytes of the output memory.
fn print_front<W: Write>(to: &mut W, output: &[u8], bytes: u32) -> io::Result<()>
    ensures { OnOk result (Appends (W.contents to.old) (W.contents to.new) (take bytes output.now)) }
{
    let n = output.len().min(bytes as usize);
    to.write_all(&output[..n])
}

// A name and the numbers, single spaces between and a line feed last.
fn print_numbers<W: Write>(to: &mut W, name: &[u8], ns: &[u32]) -> io::Result<()>
    ensures { OnOk result (Appends (W.contents to.old) (W.contents to.new) (line_of name.now ns.now)) }
{
    to.write_all(name)?;
    for (i, n) in ns.iter().enumerate() {
        if 0 < i {
            to.write_all(b" ")?;
        }
        print_number(to, *n)?;
    }
    to.write_all(b"\n")
}

// Prints the sent lines, and then `end=` with the seven numbers.
#[tactic(auto, unfolding(model::specs::Text::bytes, model::specs::Answer::report))]
pub fn print_run<W: Write>(stdout: &mut W, ns: [u32; NUMBERS], output: &[u8]) -> io::Result<()>
    ensures { OnOk result (Appends (W.contents stdout.old) (W.contents stdout.new)
        (take (bytes_written ns) output.now ++ report ns)) }
{
    print_front(stdout, output, ns[4])?;
    print_numbers(stdout, b"end=", &ns)
}

// How it went: the text on standard output, and the numbers on standard error. Each is tried whatever becomes of the
// other.
#[derive(Drop)]
pub struct Printed {
    pub text: io::Result<()>,
    pub numbers: io::Result<()>,
}

// Prints the text that was written; standard error gets `answer=` with the three numbers.
#[tactic(auto, unfolding(model::specs::Text::bytes))]
pub fn print_text<W: Write, E: Write>(
    stdout: &mut W,
    stderr: &mut E,
    ns: [u32; TEXT_NUMBERS],
    output: &[u8],
) -> Printed
    ensures text { OnOk result.text (Appends (W.contents stdout.old) (W.contents stdout.new)
        (take (text_bytes ns) output.now)) }
    ensures numbers { OnOk result.numbers (Appends (E.contents stderr.old) (E.contents stderr.new) (answer_line ns)) }
{
    Printed {
        text: print_front(stdout, output, ns[2]),
        numbers: print_numbers(stderr, b"answer=", &ns),
    }
}

// Writes a text into the output memory and prints it, and `answer=` with the three numbers on standard error. The output
// memory is left as the writing left it, also where printing fails.
pub fn write_and_print<F, W, E>(
    writing: F,
    output: &mut [u8],
    stdout: &mut W,
    stderr: &mut E,
) -> (Result<u32, TextFault>, Printed)
where
    F: FnOnce(&mut [u8]) -> Result<u32, TextFault>,
    W: Write,
    E: Write,
    requires { F.IsAlwaysCallable writing }
    ensures memory { FnOnceReturnsAtMut F.FnOnce writing output.old result.0 output.new }
    ensures text { OnOk result.1.text (Appends (W.contents stdout.old) (W.contents stdout.new)
        (text_of (written (told result.0) output.new))) }
    ensures numbers { OnOk result.1.numbers (Appends (E.contents stderr.old) (E.contents stderr.new)
        (said_of (written (told result.0) output.new))) }
{
    let wrote = writing(output);
    let printed = print_text(stdout, stderr, written_numbers(wrote), output);
    (wrote, printed)
}
