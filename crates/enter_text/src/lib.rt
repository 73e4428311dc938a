// What the C entries do that run a sheet or write a text: the length of the answer memory is tested, and the numbers
// go into it.
#![tactic(auto)]

ghost use Rattle.std.specs.Prelude.{◌≡◌, ℕ, List, Result};
ghost use Rattle.std.specs.Fn.{FnOnceReturnsAtMut};
ghost use Rattle.model.specs.declared.TextFault.{TextFault};
ghost use Rattle.model.specs.Written.{Written, written, told, text_entry};
ghost use Rattle.model_entry.specs.Entry.{Leaves, Answered, LogAnswered, BlocksAnswered, FormAnswered};

use model::{ANSWER_BYTES, TEXT_ANSWER_BYTES, TextFault};
use model_forms::Asked;
use whole_blocks::write_blocks;
use whole_forms::turn_sheet;
use whole_log::write_log;
use whole_sheet::run_sheet;
use write_answer::{put_numbers, run_numbers, written_numbers};

// An answer memory of another length than 28 bytes gets 10, and nothing is written; else the sheet is run on the
// output memory, the seven numbers go into the answer memory, and the first of them is returned.
pub fn run_into(sheet: &[u8], output: &mut [u8], answer: &mut [u8]) -> u32
    ensures { Answered sheet.now output.old answer.old result output.new answer.new }
{
    if answer.len() != ANSWER_BYTES {
        return 10;
    }
    let ns = run_numbers(run_sheet(sheet, output));
    put_numbers(answer, &ns);
    ns[0]
}

// An answer memory of another length than 12 bytes gets 10, and nothing is written; else a text is written into the
// output memory, the three numbers go into the answer memory, and the first of them is returned.
fn enter<F: FnOnce(&mut [u8]) -> Result<u32, TextFault>>(
    writing: F,
    output: &mut [u8],
    answer: &mut [u8],
) -> u32
    requires { F.IsAlwaysCallable writing }
    ensures { (w : Written) → ((wrote : Result ℕ TextFault) (m : List ℕ) →
        FnOnceReturnsAtMut F.FnOnce writing output.old wrote m → written (told wrote) m ≡ w) →
        Leaves (text_entry output.old answer.old w) result output.new answer.new }
{
    if answer.len() != TEXT_ANSWER_BYTES {
        return 10;
    }
    let told = written_numbers(writing(output));
    put_numbers(answer, &told);
    told[0]
}

// Writes the `msg` lines of the export into the output memory, and answers with the three numbers.
#[tactic(auto, unfolding(model_log::specs::Log::log_entry))]
pub fn csv_into(log: &[u8], output: &mut [u8], answer: &mut [u8]) -> u32
    ensures { LogAnswered log.now output.old answer.old result output.new answer.new }
{
    enter(|memory| write_log(log, memory), output, answer)
}

// Writes the `do` lines of the program with blocks for so many keys into the output memory, and answers with the three
// numbers.
#[tactic(auto, unfolding(model_blocks::specs::Dialect::blocks_entry))]
pub fn blocks_into(text: &[u8], keys: u32, output: &mut [u8], answer: &mut [u8]) -> u32
    ensures { BlocksAnswered text.now keys output.old answer.old result output.new answer.new }
{
    enter(|memory| write_blocks(text, keys, memory), output, answer)
}

// Writes the sheet in that form into the output memory, and answers with the three numbers.
#[tactic(auto, unfolding(model_forms::specs::Forms::turn_entry))]
pub fn turn_into(sheet: &[u8], asked: Asked, output: &mut [u8], answer: &mut [u8]) -> u32
    ensures { FormAnswered asked sheet.now output.old answer.old result output.new answer.new }
{
    enter(|memory| turn_sheet(sheet, asked, memory), output, answer)
}
