// What `reform` does with a sheet: turned into the form asked for and printed.
#![tactic(auto)]

ghost use Rattle.std.specs.Prelude.{◌≡◌, OnOk};
ghost use Rattle.std.specs.Io.KnownBytes.{Appends};
ghost use Rattle.model.specs.{Written.written, Written.told};
ghost use Rattle.model_forms.specs.Forms.{turn_sheet};
ghost use Rattle.terminal.specs.Printed.{text_of, said_of};

use model::TextFault;
use model_forms::Asked;
use std::io::Write;
use terminal::Printed;
use whole_forms::turn_sheet;

// Turns the sheet into the output memory and prints it, and `answer=` with the three numbers on standard error. The
// output memory is left as the turning left it, also where printing fails.
pub fn turn_and_print<W: Write, E: Write>(
    sheet: &[u8],
    asked: Asked,
    output: &mut [u8],
    stdout: &mut W,
    stderr: &mut E,
) -> (Result<u32, TextFault>, Printed)
    ensures memory { written (told result.0) output.new ≡ turn_sheet asked sheet.now output.old }
    ensures text { OnOk result.1.text (Appends (W.contents stdout.old) (W.contents stdout.new)
        (text_of (turn_sheet asked sheet.now output.old))) }
    ensures numbers { OnOk result.1.numbers (Appends (E.contents stderr.old) (E.contents stderr.new)
        (said_of (turn_sheet asked sheet.now output.old))) }
{
    terminal::write_and_print(
        |memory| turn_sheet(sheet, asked, memory),
        output,
        stdout,
        stderr,
    )
}
