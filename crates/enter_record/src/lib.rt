// What the C entries of a record do, with the record by value: the length of the answer memory is tested, and the
// numbers go into it.
#![tactic(auto)]

ghost use Rattle.std.specs.Prelude.{◌≡◌, [], ◌∷◌, length};
ghost use Rattle.model.specs.{Answer.all_le32, Answer.bytes_for};
ghost use Rattle.model_record.specs.{Claims.Shaped, Entry.record_number_count};
ghost use Rattle.model_entry.specs.Entry.{WriteAnswered, ReadAnswered};

use model_record::JobRecord;
use whole_record::{open_sheet, save_record};
use write_answer::put_numbers;

// The answer memories, as the header names them.
const WRITE_ANSWER_BYTES: usize = 8;

const JOB_ANSWER_BYTES: usize = 8;

// Two numbers go into the answer memory, and the first of them is given.
fn put_two(answer: &mut [u8], number: u32, other: u32) -> u32
    requires { length answer.old ≡ bytes_for record_number_count }
    ensures { (result ≡ number) × (answer.new ≡ all_le32 (number ∷ other ∷ [])) }
{
    let ns = [number, other];
    put_numbers(answer, &ns);
    number
}

// All that `pavebox_write` does, with the record by value, which has its places as every record in memory has.
pub fn write_into(job: JobRecord, output: &mut [u8], answer: &mut [u8]) -> u32
    ensures { WriteAnswered job output.old answer.old result output.new answer.new × Shaped job }
{
    if answer.len() != WRITE_ANSWER_BYTES {
        return 10;
    }
    match save_record(job, output) {
        Ok(bytes) => put_two(answer, 0, bytes),
        Err(fault) => put_two(answer, u32::from(fault.refusal), 0),
    }
}

// The record after a call, and the number to return.
#[derive(Clone, Copy)]
pub struct Opening {
    pub after: JobRecord,
    pub number: u32,
}

// All that `pavebox_read` does, with the record by value.
pub fn read_into(sheet: &[u8], job: JobRecord, answer: &mut [u8]) -> Opening
    ensures { ReadAnswered sheet.now job answer.old result.number result.after answer.new × Shaped job }
{
    if answer.len() != JOB_ANSWER_BYTES {
        return Opening {
            after: job,
            number: 10,
        };
    }
    let mut after = job;
    let number = match open_sheet(sheet, &mut after) {
        Ok(()) => put_two(answer, 0, 0),
        Err(fault) => put_two(answer, u32::from(fault.refusal), fault.line),
    };
    Opening { after, number }
}
