// The fields of the message: as a receive fills them, and as a command of one level reads and changes them.
#![tactic(auto)]

ghost use Rattle.std.specs.Prelude.{◌≡◌, cond};
ghost use Rattle.model.specs.Stored.{absent_field, side as Field·side, with_side};
ghost use Rattle.model_run.specs.Message.{shown};
ghost use Rattle.model.specs.declared.Level.TheVariants.{Low};
ghost use Rattle.run_message.specs.Message.{field_of, owner_of, Cleared};

use model::{Entry, EntrySlot, Field, KEY_CAPACITY, Key, KeySlot, Level, Owner};

// What all but a key's owner are shown of the entry e at it: the dummy of a secret key, whether or not e is present.
#[tactic(auto, unfolding(model_run::specs::Message::shown))]
fn hidden(key: Key, e: Entry) -> Entry
    ensures { result ≡ shown Low key e }
{
    match key {
        Key::Open => e,
        Key::Secret(_, d) => Entry::Number(d),
    }
}

// The owner of a key; an open one's fields are all the same.
fn owner_of(key: Key) -> Owner
    ensures { result ≡ owner_of key }
{
    match key {
        Key::Open => Owner::A,
        Key::Secret(owner, _) => owner,
    }
}

// A key's fields where the line has the entry e at it. Written so that the compiler makes of a receive with no line
// left a loop of its own.
#[tactic(auto, unfolding(model_run::specs::Message::shown))]
fn field(key: Key, e: Entry) -> Field
    ensures { result ≡ field_of key e }
{
    let other = hidden(key, e);
    match owner_of(key) {
        Owner::A => Field {
            low: other,
            a: e,
            b: other,
        },
        Owner::B => Field {
            low: other,
            a: other,
            b: e,
        },
    }
}

// Absent for every level.
const NONE: Field = Field {
    low: Entry::Absent,
    a: Entry::Absent,
    b: Entry::Absent,
};

// A key's fields after a receive: as the line fills them, where there is one more; else absent.
pub fn received(slot: KeySlot, more: bool, entry: EntrySlot) -> Field
    ensures { result ≡ cond more (field_of slot.key entry.entry) absent_field }
{
    if more {
        field(slot.key, entry.entry)
    } else {
        NONE
    }
}

// Every field absent.
pub fn cleared() -> [Field; KEY_CAPACITY]
    ensures { Cleared result }
{
    [NONE; KEY_CAPACITY]
}

// The field of a level.
pub fn side(f: Field, level: Level) -> Entry
    ensures { result ≡ Field·side level f }
{
    match level {
        Level::Low => f.low,
        Level::High(Owner::A) => f.a,
        Level::High(Owner::B) => f.b,
    }
}

// An execution changes the field of its own level, and no other.
pub fn with(f: Field, level: Level, e: Entry) -> Field
    ensures { result ≡ with_side level e f }
{
    match level {
        Level::Low => Field { low: e, ..f },
        Level::High(Owner::A) => Field { a: e, ..f },
        Level::High(Owner::B) => Field { b: e, ..f },
    }
}
