// Programs with blocks: the lines of a text, and the commands that they are translated to.
//
// Reading a block and reading what stands in it call each other, the unread length falling: from a block to one within
// it by a line at least. The lines of one block are read in a loop, so that the calls are as deep as the blocks and no
// deeper, however long the text is.
//
// The commands are kept as numbers in a memory that is lent. Those behind its end are counted and not kept: a text with
// too many commands is still read to its last line.
#![tactic(auto)]

ghost use Rattle.std.specs.Prelude.{◌≡◌, ◌+◌, ◌<◌, ◌≤◌, length, take, set};
ghost use Rattle.model.specs.{Limits.most_keys, Limits.variables, Text.find, Text.space, Refusal.parsed};
ghost use Rattle.model_blocks.specs.{Block.test_to, Block.jump_to, Dialect.own_command, Dialect.tested, Dialect.else_word};
ghost use Rattle.read_command.specs.{Code.code_of, Command.parts_after};
ghost use Rattle.read_blocks.specs.Blocks.{next_line, fault, Sane, LineAt, ItemRead, BlockRead, NestedRead, OtherAsked, OtherRead, OwnAsked, OwnRead};
ghost use Rattle.read_blocks.specs.Blocks.{ProgramRead, near_by, opener_word};

use model::{Command, Form, LAST_VARIABLE, Op, Refusal, TextFault};
use read_command::{FirstWord, first_word, one_part, read_by_row, word_by_code};
use read_dialect::{LineWord, goes_elsewhere, keep, said_by};
use read_line::spoilt_line;
use read_text::find_byte;

// "nested at most 8 deep"
const DEEPEST: usize = 8;

// A program has one key at least.
const FEWEST_KEYS: u64 = 1;

// Where reading stands: the start of the next line, its number, and how many commands there are so far.
#[derive(Clone, Copy)]
pub struct Mark {
    pub at: usize,
    pub line: usize,
    pub count: usize,
}

impl Mark {
    // The line behind this one, which ends at e, with so many commands more before it.
    fn next_line(self, e: usize, more: usize) -> Mark
        requires { (self.at + e + 1 < 18446744073709551616) × (self.line + 1 < 18446744073709551616) × (self.count + more < 18446744073709551616) }
        ensures { result ≡ next_line self e more }
    {
        Mark {
            at: self.at + e + 1,
            line: self.line + 1,
            count: self.count + more,
        }
    }

    // The refusal of this line.
    fn fault(self, refusal: Refusal) -> TextFault
        ensures { result ≡ fault self refusal }
    {
        TextFault {
            refusal,
            line: self.line,
        }
    }
}

// A line of a block's own words: where its first word ends, and where it ends itself.
#[derive(Clone, Copy)]
pub struct Line {
    pub word: usize,
    pub end: usize,
}

// Why the lines of a block end: the text is over, or there is a line with `else` or `end`.
#[derive(Clone, Copy)]
pub enum Close {
    Over,
    Else(Line),
    End(Line),
}

// What stands at a place: a command with the blocks in it, and the place behind it; or what ends a block.
#[derive(Clone, Copy)]
pub enum Item {
    Got(Mark),
    Stop(Close),
}

// The lines of a block: why they end, and where.
#[derive(Clone, Copy)]
pub struct Body {
    pub stop: Close,
    pub place: Mark,
}

// A command of the dialect on the line l, whose first word is w.
fn own_command(l: &[u8], keys: u64, w: FirstWord) -> Result<Command, Refusal>
    requires { (1 ≤ keys) × (keys ≤ most_keys) × (w.end ≡ find space l.now) × (w.code ≡ code_of (take w.end l.now)) }
    ensures { parsed result ≡ own_command keys (take w.end l.now) (parts_after w.end l.now) }
{
    let (op, shape) = word_by_code(w.code)?;
    if goes_elsewhere(op) {
        return Err(Refusal::BadCommand);
    }
    read_by_row(op, shape, l, w.end, keys, 0)
}

// The v of `if v` and `while v`, of a line whose first word ends at e.
fn variable_of(l: &[u8], e: usize) -> Result<u64, Refusal>
    ensures { parsed result ≡ tested (parts_after e l.now) }
{
    if l.len() <= e {
        return Err(Refusal::BadCommand);
    }
    one_part(&l[e + 1..], LAST_VARIABLE)
}

// A target as a command's number has room for it. One that is too far stands in a program that is too long, whose
// commands are not used.
fn near(t: usize) -> u32
    ensures { result ≡ near_by t }
{
    if t < 65536 {
        return t as u32;
    }
    0
}

// The test before a block: it goes to t where v is 0.
fn test_to(t: usize, v: u64) -> Command
    requires { v < variables }
    ensures { result ≡ test_to (near_by t) v }
{
    Command {
        op: Op::IfZero,
        v: v as u8,
        w: 0,
        k: 0,
        t: near(t),
        n: 0,
    }
}

// The jump behind a block.
fn jump_to(t: usize) -> Command
    ensures { result ≡ jump_to (near_by t) }
{
    Command {
        op: Op::Jump,
        v: 0,
        w: 0,
        k: 0,
        t: near(t),
        n: 0,
    }
}

// A command of the dialect's own on the line l at p.
fn read_own(l: &[u8], keys: u64, p: Mark, w: FirstWord, out: &mut [u64]) -> Result<Mark, TextFault>
    requires { OwnAsked keys l.now p w out.old }
    ensures { OwnRead keys l.now w.end p out.old out.new result }
{
    let c = own_command(l, keys, w).map_err(|refusal| p.fault(refusal))?;
    keep(out, p.count, c);
    Ok(p.next_line(l.len(), 1))
}

// The lines of a block from a place on, up to the first that does not stand in it. The text, the number of keys and the
// memory are handed on one by one: behind one `&mut`, each contract would have to say that text and keys stay.
#[cycle(blocks)]
fn read_block(
    s: &[u8],
    keys: u64,
    depth: usize,
    from: Mark,
    out: &mut [u64],
) -> Result<Body, TextFault>
    requires { Sane s.now keys depth from out.old }
    ensures { BlockRead keys depth s.now from out.old out.new result }
{
    let mut p = from;
    loop {
        match read_item(s, keys, depth, p, out)? {
            Item::Got(q) => p = q,
            Item::Stop(stop) => return Ok(Body { stop, place: p }),
        }
    }
}

// What stands at a place: by the first word of the line there.
#[cycle(blocks)]
fn read_item(s: &[u8], keys: u64, depth: usize, p: Mark, out: &mut [u64]) -> Result<Item, TextFault>
    requires { Sane s.now keys depth p out.old }
    ensures { ItemRead keys depth s.now p out.old out.new result }
{
    let t = &s[p.at..];
    let end = find_byte(t, b'\n');
    if t.len() <= end {
        return Ok(Item::Stop(Close::Over));
    }
    let l = &t[..end];
    let w = first_word(l);
    let line = Line { word: w.end, end };
    let q = match said_by(w.code) {
        LineWord::Else => return Ok(Item::Stop(Close::Else(line))),
        LineWord::End => return Ok(Item::Stop(Close::End(line))),
        LineWord::If => read_nested(s, keys, depth, p, line, false, out)?,
        LineWord::While => read_nested(s, keys, depth, p, line, true, out)?,
        LineWord::Other => read_own(l, keys, p, w, out)?,
    };
    Ok(Item::Got(q))
}

// An `if` or a `while` at a place, with its blocks. The test is kept once it is known where the first block ends.
#[cycle(blocks)]
fn read_nested(
    s: &[u8],
    keys: u64,
    depth: usize,
    from: Mark,
    line: Line,
    looping: bool,
    out: &mut [u64],
) -> Result<Mark, TextFault>
    requires { Sane s.now keys depth from out.old × LineAt s.now from line (opener_word looping) }
    ensures { NestedRead keys depth s.now from out.old out.new result }
{
    if DEEPEST <= depth {
        return Err(from.fault(Refusal::TooDeep));
    }
    let t = &s[from.at..];
    let v = variable_of(&t[..line.end], line.word).map_err(|refusal| from.fault(refusal))?;
    let body = read_block(s, keys, depth + 1, from.next_line(line.end, 1), out)?;
    let p = body.place;
    match body.stop {
        Close::Over => Err(p.fault(Refusal::UnpairedBlock)),
        Close::Else(l) => {
            if looping {
                return Err(p.fault(Refusal::UnpairedBlock));
            }
            read_other(s, keys, depth, from.count, v, p, l, out)
        }
        Close::End(l) => {
            if l.word < l.end {
                return Err(p.fault(Refusal::BadCommand));
            }
            if looping {
                keep(out, from.count, test_to(p.count + 1, v));
                keep(out, p.count, jump_to(from.count));
                return Ok(p.next_line(l.end, 1));
            }
            keep(out, from.count, test_to(p.count, v));
            Ok(p.next_line(l.end, 0))
        }
    }
}

// An `else` at a place, and the block behind it. The test of its `if` is at the place test. Inlined, for the stack: a
// frame of its own would come with each block in a second body.
#[cycle(blocks)]
#[inline(always)]
fn read_other(
    s: &[u8],
    keys: u64,
    depth: usize,
    test: usize,
    v: u64,
    p: Mark,
    line: Line,
    out: &mut [u64],
) -> Result<Mark, TextFault>
    requires { Sane s.now keys depth p out.old × LineAt s.now p line else_word × OtherAsked depth test v p }
    ensures { OtherRead keys depth s.now test v p out.old out.new result }
{
    if line.word < line.end {
        return Err(p.fault(Refusal::BadCommand));
    }
    let body = read_block(s, keys, depth + 1, p.next_line(line.end, 1), out)?;
    let q = body.place;
    match body.stop {
        Close::Over => Err(q.fault(Refusal::UnpairedBlock)),
        Close::Else(_) => Err(q.fault(Refusal::UnpairedBlock)),
        Close::End(l) => {
            if l.word < l.end {
                return Err(q.fault(Refusal::BadCommand));
            }
            keep(out, test, test_to(p.count + 1, v));
            keep(out, p.count, jump_to(q.count));
            Ok(q.next_line(l.end, 0))
        }
    }
}

// The text of a program for so many keys: any bytes, of any length, and any number of keys. It answers the count of
// commands.
pub fn read_blocks(s: &[u8], keys: u64, out: &mut [u64]) -> Result<usize, TextFault>
    requires { length out.old < 65536 }
    ensures { ProgramRead keys s.now out.old out.new result }
{
    if keys < FEWEST_KEYS || Form::one().keys < keys {
        return Err(TextFault {
            refusal: Refusal::BadNumber,
            line: 0,
        });
    }
    let line = spoilt_line(s);
    if line != 0 {
        return Err(TextFault {
            refusal: Refusal::Spoilt,
            line,
        });
    }
    let top = Mark {
        at: 0,
        line: 1,
        count: 0,
    };
    let body = read_block(s, keys, 0, top, out)?;
    match body.stop {
        Close::Over => Ok(body.place.count),
        Close::Else(_) | Close::End(_) => Err(body.place.fault(Refusal::UnpairedBlock)),
    }
}
