// The words of the dialect: what a line's first word says, and what is left out of the table; and how a command is
// kept.
#![tactic(auto)]

ghost use Rattle.std.specs.Prelude.{◌≡◌, set};
ghost use Rattle.model.specs.Refusal.{parsed_by};
ghost use Rattle.read_command.specs.Command.{word_as};
ghost use Rattle.pack_command.specs.Pack.{command_number, Packable};
ghost use Rattle.read_dialect.specs.Words.{said_as, by_code, goes_elsewhere, left_out};

use model::{Command, Op, Refusal};
use pack_command::pack;
use read_command::Shape;

// What the first word of a line says.
#[derive(Clone, Copy)]
pub enum LineWord {
    If,
    Else,
    While,
    End,
    Other,
}

// The word of a line by its number.
#[tactic(auto, unfolding(model::specs::Text::bytes, read_command::specs::Code::code_of, read_command::specs::Code::with_count, read_command::specs::Code::packed, crate::specs::Words::by_code))]
pub fn said_by(code: u64) -> LineWord
    ensures { said_as result ≡ by_code code }
{
    match code {
        215858 => LineWord::If, // if
        13612849964 => LineWord::Else, // else
        4102822781741 => LineWord::While, // while
        53179171 => LineWord::End, // end
        _ => LineWord::Other,
    }
}

// Whether a command goes to a target: the dialect leaves it out.
pub fn goes_elsewhere(op: Op) -> bool
    ensures { result ≡ goes_elsewhere op }
{
    matches!(op, Op::IfNeg | Op::IfZero | Op::Jump)
}

// A word of the table that goes to a target, which the dialect leaves out.
pub fn is_left_out(word: Result<(Op, Shape), Refusal>) -> bool
    ensures { result ≡ left_out (parsed_by word_as word) }
{
    match word {
        Ok((op, _)) => goes_elsewhere(op),
        Err(_) => false,
    }
}

// Keeps a command at its place, if the memory reaches so far.
pub fn keep(out: &mut [u64], at: usize, c: Command)
    requires { Packable c }
    ensures { out.new ≡ set out.old at (command_number c) }
{
    if at < out.len() {
        out[at] = pack(c);
    }
}
