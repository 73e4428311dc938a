// A whole sheet: read, then run.
#![tactic(auto)]

ghost use Rattle.std.specs.Prelude.{◌≡◌};
ghost use Rattle.model.specs.Answer.{answer_as};
ghost use Rattle.model_run.specs.Whole.{left, run_sheet};

use model::{Ended, Fault};
use read_sheet::read_sheet;
use run_job::run_job;

// Runs a sheet on an output memory. Any bytes at all are taken.
pub fn run_sheet(sheet: &[u8], output: &mut [u8]) -> Result<Ended, Fault>
    ensures { left (answer_as result) output.new ≡ run_sheet sheet.now output.old }
{
    // With `?` the job is copied once more: 4 KB of stack.
    match read_sheet(sheet) {
        Ok(job) => Ok(run_job(job, output)),
        Err(fault) => Err(fault),
    }
}
