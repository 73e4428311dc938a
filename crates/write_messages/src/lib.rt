// Message lines as a sheet has them.
#![tactic(auto)]

ghost use Rattle.std.specs.Prelude.{map, length, ◌<◌, ◌≤◌};
ghost use Rattle.model.specs.Stored.{key_capacity, entry_in, entries_in};
ghost use Rattle.model_text.specs.Text.{pair_text, message_text, message_lines};
ghost use Rattle.write_text.specs.Put.{Put, Room};
ghost use Rattle.write_messages.specs.Messages.{part_text, line_text};

use model::{Entry, EntrySlot, MessageLine};
use write_text::{put_byte, put_if, put_natural, put_whole, put_word};

// `key:value`
#[tactic(auto, using(write_text::proofs::Laws::rooms), unfolding(model_text::specs::Text::pair_text))]
pub fn put_pair(out: &mut [u8], at: usize, k: usize, v: i32) -> usize
    requires { (k < key_capacity) × Room out.old at (pair_text (k, v)) }
    ensures { Put out.old at (pair_text (k, v)) out.new result }
{
    let colon = put_natural(out, at, k as u32);
    let value = put_byte(out, colon, b':');
    put_whole(out, value, v)
}

// A part of a line, behind a comma unless it is the first.
fn put_part(out: &mut [u8], at: usize, first: bool, k: usize, v: i32) -> usize
    requires { (k < key_capacity) × Room out.old at (part_text first k v) }
    ensures { Put out.old at (part_text first k v) out.new result }
{
    let part = put_if(out, at, !first, b',');
    put_pair(out, part, k, v)
}

// What follows `msg=`.
fn put_entries(out: &mut [u8], at: usize, slots: &[EntrySlot]) -> usize
    requires { (length slots.now ≤ key_capacity) × Room out.old at (message_text (map entry_in slots.now)) }
    ensures { Put out.old at (message_text (map entry_in slots.now)) out.new result }
{
    let mut next = at;
    let mut first = true;
    for (k, slot) in slots.iter().enumerate() {
        if let Entry::Number(v) = slot.entry {
            next = put_part(out, next, first, k, v);
            first = false;
        }
    }
    next
}

#[tactic(auto, using(write_text::proofs::Laws::rooms, crate::proofs::Laws::line_parts))]
fn put_message(out: &mut [u8], at: usize, line: &MessageLine, keys: usize) -> usize
    requires { (keys ≤ key_capacity) × Room out.old at (line_text (entries_in keys line.now)) }
    ensures { Put out.old at (line_text (entries_in keys line.now)) out.new result }
{
    let value = put_word(out, at, b"msg=");
    let end = put_entries(out, value, &line.slots[..keys]);
    put_byte(out, end, b'\n')
}

// The lines of messages of so many keys.
pub fn put_messages(out: &mut [u8], at: usize, messages: &[MessageLine], keys: usize) -> usize
    requires { (keys ≤ key_capacity) × Room out.old at (message_lines (map (entries_in keys) messages.now)) }
    ensures { Put out.old at (message_lines (map (entries_in keys) messages.now)) out.new result }
{
    let mut next = at;
    for line in messages {
        next = put_message(out, next, line, keys);
    }
    next
}
