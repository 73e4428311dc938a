// The C entries. What they do is in the crates below; each has its contract in crates/model_entry/specs.
#![tactic(auto)]

ghost use Rattle.model_entry.specs.Entry.{Answered, LogAnswered, BlocksAnswered, FormAnswered, WriteAnswered, ReadAnswered};
ghost use Rattle.model_forms.specs.declared.Asked.TheVariants.{One, Two};
ghost use Rattle.model_record.specs.{Claims.Shaped};

use enter_record::{read_into, write_into};
use enter_text::{blocks_into, csv_into, run_into, turn_into};
use model_forms::Asked;
use model_record::JobRecord;

#[unsafe(no_mangle)]
pub extern "C" fn pavebox_run(sheet: &[u8], output: &mut [u8], answer: &mut [u8]) -> u32
    ensures { Answered sheet.now output.old answer.old result output.new answer.new }
{
    run_into(sheet, output, answer)
}

#[unsafe(no_mangle)]
pub extern "C" fn pavebox_csv(log: &[u8], output: &mut [u8], answer: &mut [u8]) -> u32
    ensures { LogAnswered log.now output.old answer.old result output.new answer.new }
{
    csv_into(log, output, answer)
}

#[unsafe(no_mangle)]
pub extern "C" fn pavebox_blocks(
    text: &[u8],
    keys: u32,
    output: &mut [u8],
    answer: &mut [u8],
) -> u32
    ensures { BlocksAnswered text.now keys output.old answer.old result output.new answer.new }
{
    blocks_into(text, keys, output, answer)
}

#[unsafe(no_mangle)]
pub extern "C" fn pavebox_to_sheet2(sheet: &[u8], output: &mut [u8], answer: &mut [u8]) -> u32
    ensures { FormAnswered Two sheet.now output.old answer.old result output.new answer.new }
{
    turn_into(sheet, Asked::Two, output, answer)
}

#[unsafe(no_mangle)]
pub extern "C" fn pavebox_to_sheet1(sheet: &[u8], output: &mut [u8], answer: &mut [u8]) -> u32
    ensures { FormAnswered One sheet.now output.old answer.old result output.new answer.new }
{
    turn_into(sheet, Asked::One, output, answer)
}

// The record is only read.
#[unsafe(no_mangle)]
pub extern "C" fn pavebox_write(job: &JobRecord, output: &mut [u8], answer: &mut [u8]) -> u32
    ensures { WriteAnswered job.now output.old answer.old result output.new answer.new × Shaped job.now }
{
    write_into(*job, output, answer)
}

// A refusal leaves the record as it was.
#[unsafe(no_mangle)]
pub extern "C" fn pavebox_read(sheet: &[u8], job: &mut JobRecord, answer: &mut [u8]) -> u32
    ensures { ReadAnswered sheet.now job.old answer.old result job.new answer.new × Shaped job.old }
{
    let t = read_into(sheet, *job, answer);
    *job = t.after;
    t.number
}
