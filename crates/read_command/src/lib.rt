// What follows `do=` in a sheet, read by the table of commands.
//
// The numbers of a line are read first, and the command is made of them once: a command that was passed on from part to
// part would go through memory.
#![tactic(auto)]

ghost use Rattle.std.specs.Prelude.{◌≡◌, ◌<◌, ◌*◌, ◌-◌};
ghost use lib.{IntN.pos, ListN.take};
ghost use Rattle.model.specs.{Limits.variables, Text.find, Text.space, Text.split, Number.number, Number.up_to, Refusal.parsed, Refusal.parsed_by};
ghost use Rattle.model.specs.Command.{by_row, limits, table, read_command};
ghost use Rattle.read_command.specs.Code.{code_of, lookup_code, six_bytes, with_count};
ghost use Rattle.read_command.specs.Command.{Fair, Fields, by_word, command_of, halves, mapped, one_of, parts_after, shape_as, two_of, with_number, word_as};

use model::{Command, LAST_VARIABLE, Op, Refusal};
use read_text::{find_byte, number_of, up_to};

// No word of the table has more bytes.
const LONGEST_WORD: usize = 7;

// 256 to the sixth. A number below it is one of six bytes, and has room for a seventh.
const SIX_BYTES: u64 = 281474976710656;

// The parts that follow a word, by the letters of the table; or none.
#[derive(Clone, Copy)]
pub enum Shape {
    Alone,
    K,
    T,
    VN,
    VW,
    VK,
    KV,
    VT,
}

// The word before the first space as a number, and where it ends.
#[derive(Clone, Copy)]
pub struct FirstWord {
    pub code: u64,
    pub end: usize,
}

// The number of a word of i bytes that make a: the bytes, 256 to a place, and then their count; 0 for a word that is
// too long, of which a has the last bytes.
fn word_at(a: u64, i: usize) -> FirstWord
    requires { a < six_bytes * 256 }
    ensures { (result.end ≡ i) × (result.code ≡ with_count a i) }
{
    if LONGEST_WORD < i {
        FirstWord { code: 0, end: i }
    } else {
        FirstWord {
            code: a * 8 + (i as u64),
            end: i,
        }
    }
}

// What stands before the first space: its number, by which one match finds the word, and where it ends. The remainder
// keeps a in its range where the word is longer than any of the table.
pub fn first_word(s: &[u8]) -> FirstWord
    ensures { (result.end ≡ find space s.now) × (result.code ≡ code_of (take result.end s.now)) }
{
    let mut a: u64 = 0;
    for (i, &b) in s.iter().enumerate() {
        if b == b' ' {
            return word_at(a, i);
        }
        a = a % SIX_BYTES * 256 + u64::from(b);
    }
    word_at(a, s.len())
}

// The row of the table by the number of its word.
#[tactic(auto, unfolding(model::specs::Command::table, model::specs::Text::bytes, crate::specs::Code::lookup_code, crate::specs::Code::code_of, crate::specs::Code::with_count, crate::specs::Code::packed))]
pub fn word_by_code(code: u64) -> Result<(Op, Shape), Refusal>
    ensures { parsed_by word_as result ≡ lookup_code table code }
{
    match code {
        60500899 => Ok((Op::Set, Shape::VN)), // set
        51061539 => Ok((Op::Add, Shape::VW)), // add
        60533523 => Ok((Op::Sub, Shape::VW)), // sub
        57387875 => Ok((Op::Mul, Shape::VW)), // mul
        52644787 => Ok((Op::Div, Shape::VW)), // div
        15353973540 => Ok((Op::Read, Shape::VK)), // read
        54725531 => Ok((Op::Has, Shape::VK)), // has
        58960803 => Ok((Op::Put, Shape::KV)), // put
        13481769860 => Ok((Op::Drop, Shape::K)), // drop
        3621520616253 => Ok((Op::IfNeg, Shape::VT)), // ifneg
        927110888395646 => Ok((Op::IfZero, Shape::VT)), // ifzero
        14288644996 => Ok((Op::Jump, Shape::T)), // jump
        257596999380742959 => Ok((Op::Receive, Shape::Alone)), // receive
        15488217892 => Ok((Op::Send, Shape::Alone)), // send
        15496084356 => Ok((Op::Stop, Shape::Alone)), // stop
        _ => Err(Refusal::BadCommand),
    }
}

// A command of natural numbers. An operand that the word lacks is 0.
fn command_of(op: Op, v: u64, w: u64, k: u64, t: u64) -> Command
    requires { Fields v w k t }
    ensures { result ≡ command_of op v w k t (pos 0) }
{
    Command {
        op,
        v: v as u8,
        w: w as u8,
        k: k as u8,
        t: t as u32,
        n: 0,
    }
}

// The two parts that one space divides.
fn halves(t: &[u8]) -> Result<(&[u8], &[u8]), Refusal>
    ensures { parsed_by (λ h. (h.0.now, h.1.now)) result ≡ halves (split space t.now) }
{
    let f = find_byte(t, b' ');
    if t.len() <= f {
        return Err(Refusal::BadCommand);
    }
    let second = &t[f + 1..];
    if second.len() <= find_byte(second, b' ') {
        return Ok((&t[..f], second));
    }
    Err(Refusal::BadCommand)
}

// One part, a number up to m.
pub fn one_part(t: &[u8], m: u64) -> Result<u64, Refusal>
    requires { m < 4294967296 }
    ensures { parsed result ≡ one_of (up_to m) (split space t.now) }
{
    if find_byte(t, b' ') < t.len() {
        return Err(Refusal::BadCommand);
    }
    up_to(t, m)
}

// Two parts, a number up to m and then one up to n.
fn two_parts(t: &[u8], m: u64, n: u64) -> Result<(u64, u64), Refusal>
    requires { (m < 4294967296) × (n < 4294967296) }
    ensures { parsed result ≡ two_of (up_to m) (up_to n) (split space t.now) }
{
    let (first, second) = halves(t)?;
    let x = up_to(first, m)?;
    let y = up_to(second, n)?;
    Ok((x, y))
}

// A variable and then a number of the full range.
fn read_set(op: Op, t: &[u8]) -> Result<Command, Refusal>
    ensures { parsed result ≡ mapped (with_number op) (two_of (up_to (variables - 1)) number (split space t.now)) }
{
    let (variable, number) = halves(t)?;
    let v = up_to(variable, LAST_VARIABLE)?;
    let n = number_of(number)?;
    let mut c = command_of(op, v, 0, 0, 0);
    c.n = n;
    Ok(c)
}

// What follows the word and its space.
fn read_parts(op: Op, shape: Shape, t: &[u8], keys: u64, target: u64) -> Result<Command, Refusal>
    requires { Fair keys target }
    ensures { parsed result ≡ by_row (limits keys target) op (shape_as shape) (split space t.now) }
{
    match shape {
        Shape::Alone => Err(Refusal::BadCommand),
        Shape::K => {
            let k = one_part(t, keys - 1)?;
            Ok(command_of(op, 0, 0, k, 0))
        }
        Shape::T => {
            let x = one_part(t, target)?;
            Ok(command_of(op, 0, 0, 0, x))
        }
        Shape::VN => read_set(op, t),
        Shape::VW => {
            let (v, w) = two_parts(t, LAST_VARIABLE, LAST_VARIABLE)?;
            Ok(command_of(op, v, w, 0, 0))
        }
        Shape::VK => {
            let (v, k) = two_parts(t, LAST_VARIABLE, keys - 1)?;
            Ok(command_of(op, v, 0, k, 0))
        }
        Shape::KV => {
            let (k, v) = two_parts(t, keys - 1, LAST_VARIABLE)?;
            Ok(command_of(op, v, 0, k, 0))
        }
        Shape::VT => {
            let (v, x) = two_parts(t, LAST_VARIABLE, target)?;
            Ok(command_of(op, v, 0, 0, x))
        }
    }
}

// What a row of the table says of the parts of its word, which ends at e.
pub fn read_by_row(
    op: Op,
    shape: Shape,
    s: &[u8],
    e: usize,
    keys: u64,
    target: u64,
) -> Result<Command, Refusal>
    requires { Fair keys target }
    ensures { parsed result ≡ by_row (limits keys target) op (shape_as shape) (parts_after e s.now) }
{
    if e < s.len() {
        return read_parts(op, shape, &s[e + 1..], keys, target);
    }
    match shape {
        Shape::Alone => Ok(command_of(op, 0, 0, 0, 0)),
        _ => Err(Refusal::BadCommand),
    }
}

// What a word with its parts says, or that the table lacks the word, which ends at e. Inlined, so that a caller that
// has just looked the word up does not ask twice whether it is there.
#[inline(always)]
pub fn read_operands(
    word: Result<(Op, Shape), Refusal>,
    s: &[u8],
    e: usize,
    keys: u64,
    target: u64,
) -> Result<Command, Refusal>
    requires { Fair keys target }
    ensures { parsed result ≡ by_word (limits keys target) (parsed_by word_as word) (parts_after e s.now) }
{
    let (op, shape) = word?;
    read_by_row(op, shape, s, e, keys, target)
}

// What follows `do=`, where there are so many keys and no target above the highest is read.
pub fn read_command(s: &[u8], keys: u64, target: u64) -> Result<Command, Refusal>
    requires { Fair keys target }
    ensures { parsed result ≡ read_command (limits keys target) s.now }
{
    let w = first_word(s);
    read_operands(word_by_code(w.code), s, w.end, keys, target)
}
