// What the table says of a command's word, and the numbers of its operands.
#![tactic(auto)]

ghost use Rattle.std.specs.Prelude.{◌≡◌};
ghost use Rattle.model.specs.{Accepted.row_for, Decimal.natural};
ghost use Rattle.model_text.specs.Text.{operand_text};
ghost use Rattle.write_text.specs.Put.{signed};

use model::{Command, Op, Operand};

// What the table says of a word: its letters, and the operands that follow it.
#[tactic(auto, unfolding(model::specs::Command::table, model::specs::Accepted::row_for, model::specs::Text::bytes))]
pub fn wording_of(op: Op) -> (&'static [u8], &'static [Operand])
    ensures word { result.0.now ≡ (row_for op).word }
    ensures operands { result.1.now ≡ (row_for op).parts }
{
    match op {
        Op::Set => (b"set", &[Operand::InV, Operand::InN]),
        Op::Add => (b"add", &[Operand::InV, Operand::InW]),
        Op::Sub => (b"sub", &[Operand::InV, Operand::InW]),
        Op::Mul => (b"mul", &[Operand::InV, Operand::InW]),
        Op::Div => (b"div", &[Operand::InV, Operand::InW]),
        Op::Read => (b"read", &[Operand::InV, Operand::InK]),
        Op::Has => (b"has", &[Operand::InV, Operand::InK]),
        Op::Put => (b"put", &[Operand::InK, Operand::InV]),
        Op::Drop => (b"drop", &[Operand::InK]),
        Op::IfNeg => (b"ifneg", &[Operand::InV, Operand::InT]),
        Op::IfZero => (b"ifzero", &[Operand::InV, Operand::InT]),
        Op::Jump => (b"jump", &[Operand::InT]),
        Op::Receive => (b"receive", &[]),
        Op::Send => (b"send", &[]),
        Op::Stop => (b"stop", &[]),
    }
}

// An operand's number by its sign and its size.
#[derive(Clone, Copy)]
pub struct Value {
    pub minus: bool,
    pub size: u32,
}

#[tactic(auto, unfolding(model_text::specs::Text::operand_text))]
pub fn value_of(c: Command, o: Operand) -> Value
    ensures { signed result.minus result.size ≡ operand_text o c }
{
    match o {
        Operand::InV => unsigned(c.v as u32),
        Operand::InW => unsigned(c.w as u32),
        Operand::InK => unsigned(c.k as u32),
        Operand::InT => unsigned(c.t),
        Operand::InN => Value {
            minus: c.n < 0,
            size: c.n.unsigned_abs(),
        },
    }
}

fn unsigned(size: u32) -> Value
    ensures { signed result.minus result.size ≡ natural size }
{
    Value { minus: false, size }
}
