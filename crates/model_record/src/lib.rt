// The record that a screen holds: plain numbers with C's layout, so that every pattern of bits is a record. What it says is in specs/.
//
// There are places for the most that any form of sheets may have, so the layout does not change with the forms: 11,608 bytes, without a gap.
#![tactic(auto)]

// The places.
pub const KEY_PLACES: usize = 16;

pub const COMMAND_PLACES: usize = 256;

pub const MESSAGE_PLACES: usize = 32;

pub const LETTER_PLACES: usize = 1024;

// An owner: the byte of its letter.
pub const OWNER_A: u32 = 65;

pub const OWNER_B: u32 = 66;

// A secret: its key, its dummy, and its owner, which is 0 in the form that names none.
#[repr(C)]
#[derive(Clone, Copy)]
pub struct SecretRecord {
    pub key: u32,
    pub dummy: i32,
    pub owner: u32,
}

// A command: the place of its word in the table, from 0, and its operands.
#[repr(C)]
#[derive(Clone, Copy)]
pub struct CommandRecord {
    pub word: u32,
    pub v: u32,
    pub w: u32,
    pub k: u32,
    pub t: u32,
    pub n: i32,
}

// An entry of a message: its key and its value.
#[repr(C)]
#[derive(Clone, Copy)]
pub struct EntryRecord {
    pub key: u32,
    pub value: i32,
}

// A message, of which so many entries count.
#[repr(C)]
#[derive(Clone, Copy)]
pub struct MessageRecord {
    pub entry_count: u32,
    pub entries: [EntryRecord; KEY_PLACES],
}

// A job. Of each array only as much counts as the number before it says; a turn letter is its byte.
#[repr(C)]
#[derive(Clone, Copy)]
pub struct JobRecord {
    pub form: u32,
    pub keys: u32,
    pub secret_count: u32,
    pub secrets: [SecretRecord; KEY_PLACES],
    pub command_count: u32,
    pub commands: [CommandRecord; COMMAND_PLACES],
    pub message_count: u32,
    pub messages: [MessageRecord; MESSAGE_PLACES],
    pub letter_count: u32,
    pub letters: [u8; LETTER_PLACES],
}
