// An export of the belt log: read, then its messages written as lines.
#![tactic(auto)]

ghost use Rattle.std.specs.Prelude.{◌≡◌};
ghost use Rattle.model.specs.Written.{written, told};
ghost use Rattle.model_log.specs.Log.{write_log};

use model::{Refusal, StoredJob, TextFault};
use read_log::{LOG_KEYS, read_log};
use write_messages::put_messages;

// Writes the `msg` lines of an export into the output memory, or refuses and writes nothing. The lines are counted
// first, in no memory at all. Any bytes at all are taken.
pub fn write_log(log: &[u8], output: &mut [u8]) -> Result<u32, TextFault>
    ensures { written (told result) output.new ≡ write_log log.now output.old }
{
    let mut read = StoredJob::no_messages();
    let count = read_log(log, &mut read)?;
    let messages = &read[..count];
    let n = put_messages(&mut [], 0, messages, LOG_KEYS);
    if output.len() < n {
        return Err(TextFault {
            refusal: Refusal::ShortForLog,
            line: 0,
        });
    }
    put_messages(output, 0, messages, LOG_KEYS);
    Ok(n as u32)
}
