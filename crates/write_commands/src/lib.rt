// Command lines as a sheet has them.
#![tactic(auto)]

ghost use Rattle.std.specs.Prelude.{[], ◌∷◌};
ghost use Rattle.model.specs.Text.{space};
ghost use Rattle.model_text.specs.Text.{prefixed, operand_text, operand_texts, command_text, command_lines};
ghost use Rattle.write_text.specs.Put.{Put, Room};

use model::{Command, Operand};
use write_text::{put_byte, put_signed, put_word};
use write_words::{value_of, wording_of};

// An operand behind its space.
#[tactic(auto, using(write_text::proofs::Laws::rooms))]
fn put_operand(out: &mut [u8], at: usize, c: Command, o: Operand) -> usize
    requires { Room out.old at (space ∷ operand_text o c) }
    ensures { Put out.old at (space ∷ operand_text o c) out.new result }
{
    let x = value_of(c, o);
    let value = put_byte(out, at, b' ');
    put_signed(out, value, x.minus, x.size)
}

// What follows a word.
fn put_operands(out: &mut [u8], at: usize, c: Command, operands: &[Operand]) -> usize
    requires { Room out.old at (prefixed space (operand_texts operands.now c)) }
    ensures { Put out.old at (prefixed space (operand_texts operands.now c)) out.new result }
{
    let mut next = at;
    for &o in operands {
        next = put_operand(out, next, c, o);
    }
    next
}

// What follows `do=`.
fn put_text(out: &mut [u8], at: usize, c: Command) -> usize
    requires { Room out.old at (command_text c) }
    ensures { Put out.old at (command_text c) out.new result }
{
    let (word, operands) = wording_of(c.op);
    let next = put_word(out, at, word);
    put_operands(out, next, c, operands)
}

#[tactic(auto, using(write_text::proofs::Laws::room_first, crate::proofs::Laws::command_parts))]
fn put_command(out: &mut [u8], at: usize, c: Command) -> usize
    requires { Room out.old at (command_lines (c ∷ [])) }
    ensures { Put out.old at (command_lines (c ∷ [])) out.new result }
{
    let value = put_word(out, at, b"do=");
    let end = put_text(out, value, c);
    put_byte(out, end, b'\n')
}

pub fn put_commands(out: &mut [u8], at: usize, commands: &[Command]) -> usize
    requires { Room out.old at (command_lines commands.now) }
    ensures { Put out.old at (command_lines commands.now) out.new result }
{
    let mut next = at;
    for &c in commands {
        next = put_command(out, next, c);
    }
    next
}
