// The parts of a sent line, written into the output memory: its heading, the cell of each key, the line feed.
#![tactic(auto)]

ghost use Rattle.std.specs.Prelude.{◌≡◌, ◌∷◌, ◌+◌, ◌*◌, ◌≤◌, ◌<◌};
ghost use lib.{ListN.length, ListN.set, ListN.replicate, IntN.nat_abs};
ghost use Rattle.model.specs.{Text.line_feed, Text.space, Text.dot, Decimal.digits, Placed.placed, Stored.side, Stored.key_capacity};
ghost use Rattle.model_run.specs.{Message.source, Line.sign as Output·sign, Line.cell as Output·cell, Line.heading as Output·heading};

use model::{Entry, Field, Key, KeySlot, Owner};
use write_text::spell;

#[tactic(auto, unfolding(model_run::specs::Line::sign))]
fn sign(x: i32) -> u8
    ensures { result ≡ Output·sign x }
{
    if x < 0 { b'-' } else { b'+' }
}

// A sign and ten digits.
fn print(out: &mut [u8], at: usize, x: i32)
    requires { at + 11 ≤ length out.old }
    ensures { out.new ≡ placed out.old at (Output·sign x ∷ digits 10 (nat_abs x)) }
{
    out[at] = sign(x);
    spell(out, at + 1, 10, x.unsigned_abs());
}

fn dots(out: &mut [u8], at: usize)
    requires { at + 11 ≤ length out.old }
    ensures { out.new ≡ placed out.old at (replicate 11 dot) }
{
    out[at..at + 11].fill(b'.');
}

#[tactic(auto, unfolding(model_run::specs::Line::cell))]
fn cell(out: &mut [u8], at: usize, e: Entry)
    requires { at + 11 ≤ length out.old }
    ensures { out.new ≡ placed out.old at (Output·cell e) }
{
    match e {
        Entry::Absent => dots(out, at),
        Entry::Number(x) => print(out, at, x),
    }
}

// A space and a cell.
fn spaced_cell(out: &mut [u8], at: usize, e: Entry)
    requires { at + 12 ≤ length out.old }
    ensures { out.new ≡ placed out.old at (space ∷ Output·cell e) }
{
    out[at] = b' ';
    cell(out, at + 1, e);
}

// The field that goes into a key's column.
#[tactic(auto, unfolding(model_run::specs::Message::source))]
fn column(key: Key, f: Field) -> Entry
    ensures { result ≡ side (source key) f }
{
    match key {
        Key::Open => f.low,
        Key::Secret(Owner::A, _) => f.a,
        Key::Secret(Owner::B, _) => f.b,
    }
}

// The cell of the key k, in a line that starts at the place at.
pub fn key_cell(out: &mut [u8], at: usize, k: usize, slot: KeySlot, f: Field)
    requires { (k < key_capacity) × (at + (9 + 12 * k) + 12 ≤ length out.old) }
    ensures { out.new ≡ placed out.old (at + (9 + 12 * k)) (space ∷ Output·cell (side (source slot.key) f)) }
{
    spaced_cell(out, at + (9 + 12 * k), column(slot.key, f));
}

// The heading of a line that starts at the place at.
pub fn heading(out: &mut [u8], at: usize, position: usize)
    requires { (at + 9 ≤ length out.old) × (position < 10000) }
    ensures { out.new ≡ placed out.old at (Output·heading position) }
{
    out[at..at + 5].copy_from_slice(b"sent=");
    spell(out, at + 5, 4, position as u32);
}

// The line feed that ends a line of so many keys.
pub fn line_end(out: &mut [u8], at: usize, keys: usize)
    requires { (keys ≤ key_capacity) × (at + (10 + 12 * keys) ≤ length out.old) }
    ensures { out.new ≡ set out.old (at + (9 + 12 * keys)) line_feed }
{
    out[at + (9 + 12 * keys)] = b'\n';
}
