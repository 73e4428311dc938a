// What `beltlog` does with an export of the belt log: written as lines and printed.
#![tactic(auto)]

ghost use Rattle.std.specs.Prelude.{◌≡◌, OnOk};
ghost use Rattle.std.specs.Io.KnownBytes.{Appends};
ghost use Rattle.model.specs.{Written.written, Written.told};
ghost use Rattle.model_log.specs.Log.{write_log};
ghost use Rattle.terminal.specs.Printed.{text_of, said_of};

use model::TextFault;
use std::io::Write;
use terminal::Printed;
use whole_log::write_log;

// Writes the `msg` lines of the export into the output memory and prints them, and `answer=` with the three numbers on
// standard error. The output memory is left as the writing left it, also where printing fails.
pub fn write_and_print<W: Write, E: Write>(
    log: &[u8],
    output: &mut [u8],
    stdout: &mut W,
    stderr: &mut E,
) -> (Result<u32, TextFault>, Printed)
    ensures memory { written (told result.0) output.new ≡ write_log log.now output.old }
    ensures text { OnOk result.1.text (Appends (W.contents stdout.old) (W.contents stdout.new)
        (text_of (write_log log.now output.old))) }
    ensures numbers { OnOk result.1.numbers (Appends (E.contents stderr.old) (E.contents stderr.new)
        (said_of (write_log log.now output.old))) }
{
    terminal::write_and_print(|memory| write_log(log, memory), output, stdout, stderr)
}
