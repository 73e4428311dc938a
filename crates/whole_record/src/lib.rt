// The screen's record: saved as a sheet, and made of one.
#![tactic(auto)]

ghost use Rattle.std.specs.Prelude.{◌≡◌};
ghost use Rattle.model.specs.{Written.told, Written.written, Sheet.read_sheet};
ghost use Rattle.model_record.specs.{Claims.Shaped, Entry.write_record};
ghost use Rattle.whole_record.specs.Opened.{Opened, resaved};

use model::{Fault, Refusal, StoredJob, TextFault};
use model_record::{
    COMMAND_PLACES, CommandRecord, EntryRecord, JobRecord, KEY_PLACES, LETTER_PLACES,
    MESSAGE_PLACES, MessageRecord, SecretRecord,
};
use read_record::read_record;
use read_sheet::read_sheet;
use save_job::{try_save_job, without_line};
use write_record::record_over;

// Writes the sheet of a record into the output memory, or refuses and writes nothing. Any record at all is taken.
pub fn save_record(r: JobRecord, output: &mut [u8]) -> Result<u32, TextFault>
    ensures { written (told result) output.new ≡ write_record r output.old }
{
    let mut job = StoredJob::nothing();
    match read_record(r, &mut job) {
        Some(()) => try_save_job(job, Refusal::ShortForRecord, output),
        None => Err(without_line(Refusal::BadRecord)),
    }
}

// Reads a sheet over an old record, which a refusal leaves as it was. Any bytes at all are taken.
pub fn open_sheet(sheet: &[u8], r: &mut JobRecord) -> Result<(), Fault>
    ensures { Opened r.old (read_sheet sheet.now) result r.new }
{
    // With `?` the job is copied once more: 4 KB of stack.
    match read_sheet(sheet) {
        Ok(job) => {
            record_over(job, r);
            Ok(())
        }
        Err(fault) => Err(fault),
    }
}

// A record of zeros.
fn blank() -> JobRecord
    ensures { Shaped result }
{
    let secret = SecretRecord {
        key: 0,
        dummy: 0,
        owner: 0,
    };
    let command = CommandRecord {
        word: 0,
        v: 0,
        w: 0,
        k: 0,
        t: 0,
        n: 0,
    };
    let entry = EntryRecord { key: 0, value: 0 };
    let message = MessageRecord {
        entry_count: 0,
        entries: [entry; KEY_PLACES],
    };
    JobRecord {
        form: 0,
        keys: 0,
        secret_count: 0,
        secrets: [secret; KEY_PLACES],
        command_count: 0,
        commands: [command; COMMAND_PLACES],
        message_count: 0,
        messages: [message; MESSAGE_PLACES],
        letter_count: 0,
        letters: [0u8; LETTER_PLACES],
    }
}

// Opens a sheet and saves it again. What is written is the sheet itself.
pub fn resave(sheet: &[u8], output: &mut [u8]) -> Result<u32, TextFault>
    ensures { written (told result) output.new ≡ resaved sheet.now output.old }
{
    let mut r = blank();
    match open_sheet(sheet, &mut r) {
        Ok(()) => save_record(r, output),
        Err(fault) => Err(TextFault::from(fault)),
    }
}
