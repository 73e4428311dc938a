// A program with blocks: read, then the commands of its translation written as lines.
#![tactic(auto)]

ghost use Rattle.std.specs.Prelude.{◌≡◌};
ghost use Rattle.model.specs.Written.{written, told};
ghost use Rattle.model_blocks.specs.Dialect.{write_blocks};

use model::{COMMAND_CAPACITY, Form, Refusal, TextFault};
use pack_command::unpack_all;
use read_blocks::read_blocks;
use write_commands::put_commands;

// Too many commands, or too little memory for their lines.
const NO_ROOM: TextFault = TextFault {
    refusal: Refusal::ShortForBlocks,
    line: 0,
};

// Writes the `do` lines of a program for so many keys into the output memory, or refuses and writes nothing. The lines
// are counted first, in no memory at all. Any bytes at all are taken, and any number of keys.
pub fn write_blocks(text: &[u8], keys: u32, output: &mut [u8]) -> Result<u32, TextFault>
    ensures { written (told result) output.new ≡ write_blocks keys text.now output.old }
{
    let mut held = [0u64; COMMAND_CAPACITY];
    let count = read_blocks(text, keys as u64, &mut held)?;
    let form = Form::one();
    if form.commands < count {
        return Err(NO_ROOM);
    }
    let unpacked = unpack_all(&held[..count]);
    let commands = &unpacked[..count];
    let n = put_commands(&mut [], 0, commands);
    if output.len() < n {
        return Err(NO_ROOM);
    }
    put_commands(output, 0, commands);
    Ok(n as u32)
}
