// The `msg` lines, each made of `key:value` parts.
#![tactic(auto)]

ghost use Rattle.std.specs.Prelude.{◌≡◌, ◌+◌, ◌<◌, ◌≤◌, length};
ghost use Rattle.std.specs.Iterator.{YieldsFirstRef, item_count};
ghost use Rattle.model.specs.{Messages.message_line, Text.comma, Text.split, Refusal.parsed_by, Stored.key_capacity, Stored.entries_in, Form.Fits};
ghost use Rattle.read_messages.specs.Messages.{MessagesRead, parts_left};

use model::{Entry, EntrySlot, Fault, Form, MESSAGE_CAPACITY, MessageLine, Refusal};
use read_line::{Mark, first_line, on_line};
use read_pair::read_pair;
use read_text::find_byte;

// The parts of a text with commas between them. std's `split` tests byte by byte: with it read_messages takes 144 bytes
// more of code and 5 to 7 in a hundred more instructions.
#[derive(Drop)]
pub struct Parts<'a> {
    rest: Option<&'a [u8]>,
}

impl<'a> Parts<'a> {
    pub fn of(s: &'a [u8]) -> Parts<'a>
        ensures { parts_left result ≡ split comma s.now }
    {
        Parts { rest: Some(s) }
    }
}

impl<'a> Iterator for Parts<'a> {
    type Item = &'a [u8];

    ghost next_gives = { YieldsFirstRef parts_left };

    ghost remaining = { item_count parts_left };

    fn next(&mut self) -> Option<&'a [u8]> {
        let t = self.rest?;
        let e = find_byte(t, b',');
        self.rest = if e < t.len() { Some(&t[e + 1..]) } else { None };
        Some(&t[..e])
    }
}

// What follows `msg=`: parts with commas between them, or nothing.
pub fn read_message(s: &[u8], keys: u64) -> Result<MessageLine, Refusal>
    requires { (1 ≤ keys) × (keys ≤ key_capacity) }
    ensures { parsed_by (entries_in keys) result ≡ message_line keys s.now }
{
    let mut slots = MessageLine::no_entries();
    if s.is_empty() {
        return Ok(MessageLine { slots });
    }
    let mut next: u64 = 0;
    for part in Parts::of(s) {
        let (k, v) = read_pair(part, keys, next)?;
        slots[k as usize] = EntrySlot {
            entry: Entry::Number(v),
        };
        next = k + 1;
    }
    Ok(MessageLine { slots })
}

// The `msg` lines at the start of s, of which the first has the number first, as messages at the front of an array; how
// many there are.
// Called and not inlined: each call's result has a place of its own on the stack of the function that it is inlined
// into, so that all phases of reading would lie there at once.
#[inline(never)]
pub fn read_messages(
    s: &[u8],
    form: Form,
    keys: u64,
    first: u32,
    messages: &mut [MessageLine; MESSAGE_CAPACITY],
) -> Result<(usize, Mark), Fault>
    requires { Fits form × (1 ≤ keys) × (keys ≤ form.keys) × (first + length s.now < 4294967296) }
    ensures { MessagesRead form keys s.now first result messages.new }
{
    let mut count: usize = 0;
    let mut line = first;
    let mut at: usize = 0;
    loop {
        let t = &s[at..];
        let Some((v, e)) = first_line(t, b"msg=") else {
            return Ok((count, Mark { line, at }));
        };
        if form.messages <= count {
            return Err(Fault {
                refusal: Refusal::TooMany,
                line,
            });
        }
        messages[count] = on_line(read_message(&t[v..e], keys), line)?;
        count += 1;
        line += 1;
        at = at + e + 1;
    }
}
