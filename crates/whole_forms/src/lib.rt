// A sheet read, and written in the form asked for.
#![tactic(auto)]

ghost use Rattle.std.specs.Prelude.{◌≡◌};
ghost use Rattle.model.specs.{Stored.Stored, Stored.job_of, Accepted.Sound, Written.told, Written.written, Written.write};
ghost use Rattle.model_change.specs.Change.{draft_of};
ghost use Rattle.model_forms.specs.Forms.{turn as turns, turn_sheet};

use model::{Refusal, StoredJob, TextFault};
use model_forms::Asked;
use read_sheet::read_sheet;
use save_job::try_save_changed;
use turn_form::turn;

// Writes a job in the form asked for. Called and not inlined, so that what it makes takes no stack while the sheet is
// read.
#[inline(never)]
fn save_turned(job: StoredJob, asked: Asked, output: &mut [u8]) -> Result<u32, TextFault>
    requires { Sound (job_of job) × Stored job }
    ensures { written (told result) output.new ≡ write 49 output.old (draft_of (turns asked (job_of job))) }
{
    let turned = turn(job, asked);
    try_save_changed(turned, Refusal::ShortForForm, output)
}

// Writes the sheet in the form asked for into the output memory, or refuses and writes nothing. Any bytes at all are
// taken.
pub fn turn_sheet(sheet: &[u8], asked: Asked, output: &mut [u8]) -> Result<u32, TextFault>
    ensures { written (told result) output.new ≡ turn_sheet asked sheet.now output.old }
{
    // With `?` the job is copied once more: 4 KB of stack.
    match read_sheet(sheet) {
        Ok(job) => save_turned(job, asked, output),
        Err(fault) => Err(TextFault::from(fault)),
    }
}
