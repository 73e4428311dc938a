// A job written as a sheet into lent memory, whole or not at all. A refusal is told by its number, or given as a fault:
// `try_save_job` and `try_save_changed`.
#![tactic(auto)]

ghost use Rattle.std.specs.Prelude.{◌≡◌, ℕ};
ghost use Rattle.model.specs.{Stored.Stored, Stored.job_of, Accepted.Sound, Refusal.number_of, Written.text, Written.told, Written.written, Written.write};
ghost use Rattle.model_sheet.specs.Sheet.{sheet_text};
ghost use Rattle.model_change.specs.{Change.draft_of, Changed.change_by, Changed.change_in, Changed.Savable, Changed.SavableBy};
ghost use Rattle.save_job.specs.Saved.{fitted_or};

use model::{Refusal, StoredJob, TextAnswer, TextFault};
use model_sheet::LONGEST_SHEET;
use write_sheet::put_sheet;

// The answer that refuses and names no line.
pub fn refuse(number: u32) -> TextAnswer
    ensures { result ≡ record { number = number; line = 0; bytes = 0 } }
{
    TextAnswer {
        number,
        line: 0,
        bytes: 0,
    }
}

// A refusal that names no line.
pub fn without_line(refusal: Refusal) -> TextFault
    ensures { result ≡ record { refusal = refusal; line = 0 } }
{
    TextFault { refusal, line: 0 }
}

// Writes the sheet of a job into the output memory and gives its bytes; where that is too short, nothing is written. As
// much as the longest sheet has is enough for every one, so that only for less the sheet is counted, in no memory at
// all.
fn save_fitting(job: &StoredJob, output: &mut [u8]) -> Option<u32>
    requires { Sound (job_of job.now) × Stored job.now }
    ensures { (short : ℕ) → written (fitted_or short result) output.new ≡
        write short output.old (text (sheet_text (job_of job.now))) }
{
    if output.len() < LONGEST_SHEET {
        let mut nowhere = [0u8; 0];
        let needed = put_sheet(&mut nowhere, job);
        if output.len() < needed {
            return None;
        }
    }
    let n = put_sheet(output, job);
    Some(n as u32)
}

// Writes the sheet of a job into the output memory; where it is too short, the number short is answered and nothing is
// written.
pub fn save_job(job: StoredJob, short: u32, output: &mut [u8]) -> TextAnswer
    requires { Sound (job_of job) × Stored job }
    ensures { written result output.new ≡ write short output.old (text (sheet_text (job_of job))) }
{
    match save_fitting(&job, output) {
        Some(bytes) => TextAnswer {
            number: 0,
            line: 0,
            bytes,
        },
        None => refuse(short),
    }
}

// The same with the refusal short.
pub fn try_save_job(job: StoredJob, short: Refusal, output: &mut [u8]) -> Result<u32, TextFault>
    requires { Sound (job_of job) × Stored job }
    ensures { written (told result) output.new ≡ write (number_of short) output.old (text (sheet_text (job_of job))) }
{
    match save_fitting(&job, output) {
        Some(bytes) => Ok(bytes),
        None => Err(without_line(short)),
    }
}

// Writes what a request made of a job, or answers the number that refuses it.
pub fn save_changed(changed: Result<StoredJob, u32>, short: u32, output: &mut [u8]) -> TextAnswer
    requires { SavableBy (λ n. n) changed }
    ensures { written result output.new ≡ write short output.old (draft_of (change_by (λ n. n) changed)) }
{
    match changed {
        Ok(job) => save_job(job, short, output),
        Err(number) => refuse(number),
    }
}

// Writes what a request made of a job, or refuses.
pub fn try_save_changed(
    changed: Result<StoredJob, Refusal>,
    short: Refusal,
    output: &mut [u8],
) -> Result<u32, TextFault>
    requires { Savable changed }
    ensures { written (told result) output.new ≡ write (number_of short) output.old (draft_of (change_in changed)) }
{
    match changed {
        Ok(job) => try_save_job(job, short, output),
        Err(refusal) => Err(without_line(refusal)),
    }
}
