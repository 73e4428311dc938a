// What `resave` does with a sheet: opened, saved again and printed.
#![tactic(auto)]

ghost use Rattle.std.specs.Prelude.{◌≡◌, OnOk};
ghost use Rattle.std.specs.Io.KnownBytes.{Appends};
ghost use Rattle.model.specs.{Written.written, Written.told};
ghost use Rattle.whole_record.specs.Opened.{resaved};
ghost use Rattle.terminal.specs.Printed.{text_of, said_of};

use model::TextFault;
use std::io::Write;
use terminal::Printed;
use whole_record::resave;

// Opens the sheet, saves it again into the output memory and prints it, and `answer=` with the three numbers on
// standard error. The output memory is left as the saving left it, also where printing fails.
pub fn resave_and_print<W: Write, E: Write>(
    sheet: &[u8],
    output: &mut [u8],
    stdout: &mut W,
    stderr: &mut E,
) -> (Result<u32, TextFault>, Printed)
    ensures memory { written (told result.0) output.new ≡ resaved sheet.now output.old }
    ensures text { OnOk result.1.text (Appends (W.contents stdout.old) (W.contents stdout.new)
        (text_of (resaved sheet.now output.old))) }
    ensures numbers { OnOk result.1.numbers (Appends (E.contents stderr.old) (E.contents stderr.new)
        (said_of (resaved sheet.now output.old))) }
{
    terminal::write_and_print(|memory| resave(sheet, memory), output, stdout, stderr)
}
