// What `blocks` does with a program with blocks: written as lines and printed.
#![tactic(auto)]

ghost use Rattle.std.specs.Prelude.{◌≡◌, OnOk};
ghost use Rattle.std.specs.Io.KnownBytes.{Appends};
ghost use Rattle.model.specs.{Written.written, Written.told};
ghost use Rattle.model_blocks.specs.Dialect.{write_blocks};
ghost use Rattle.terminal.specs.Printed.{text_of, said_of};

use model::TextFault;
use std::io::Write;
use terminal::Printed;
use whole_blocks::write_blocks;

// Writes the `do` lines of the program with blocks for so many keys into the output memory and prints them, and
// `answer=` with the three numbers on standard error. The output memory is left as the writing left it, also where
// printing fails.
pub fn translate_and_print<W: Write, E: Write>(
    text: &[u8],
    keys: u32,
    output: &mut [u8],
    stdout: &mut W,
    stderr: &mut E,
) -> (Result<u32, TextFault>, Printed)
    ensures memory { written (told result.0) output.new ≡ write_blocks keys text.now output.old }
    ensures text { OnOk result.1.text (Appends (W.contents stdout.old) (W.contents stdout.new)
        (text_of (write_blocks keys text.now output.old))) }
    ensures numbers { OnOk result.1.numbers (Appends (E.contents stderr.old) (E.contents stderr.new)
        (said_of (write_blocks keys text.now output.old))) }
{
    terminal::write_and_print(
        |memory| write_blocks(text, keys, memory),
        output,
        stdout,
        stderr,
    )
}
