// What `runsheet` does with a sheet: run and printed.
#![tactic(auto)]

ghost use Rattle.std.specs.Prelude.{◌≡◌, OnOk};
ghost use Rattle.std.specs.Io.KnownBytes.{Appends};
ghost use Rattle.model.specs.Answer.{answer_as};
ghost use Rattle.model_run.specs.{Whole.left, Whole.run_sheet, Whole.printed};

use model::{Ended, Fault};
use std::io;
use std::io::Write;
use whole_sheet::run_sheet;
use write_answer::run_numbers;

// Runs the sheet on the output memory, and prints the sent lines and then `end=` with the seven numbers. The output
// memory is left as the run left it, also where printing fails.
#[tactic(auto, unfolding(model_run::specs::Whole::printed))]
pub fn run_and_print<W: Write>(
    sheet: &[u8],
    output: &mut [u8],
    stdout: &mut W,
) -> (Result<Ended, Fault>, io::Result<()>)
    ensures memory { left (answer_as result.0) output.new ≡ run_sheet sheet.now output.old }
    ensures lines { OnOk result.1 (Appends (W.contents stdout.old) (W.contents stdout.new)
        (printed sheet.now output.old)) }
{
    let run = run_sheet(sheet, output);
    let printed = terminal::print_run(stdout, run_numbers(run), output);
    (run, printed)
}
