// A job as a sheet: its lines in the order of document 01.
#![tactic(auto)]

ghost use Rattle.std.specs.Prelude.{map, length, ◌≤◌};
ghost use Rattle.model.specs.{Stored.key_capacity, Stored.key_in, Stored.level_of, Stored.job_of};
ghost use Rattle.model_sheet.specs.Sheet.{secret_lines, letter_of, turns_lines, sheet_text};
ghost use Rattle.write_text.specs.Put.{Put, Room};
ghost use Rattle.write_sheet.specs.Sheet.{HasRoom};

use model::{Form, Key, KeySlot, StoredJob};
use model_sheet::letter_of;
use write_commands::put_commands;
use write_head::{put_head, put_secret};
use write_messages::put_messages;
use write_text::{put_byte, put_word};

// The lines of the secret ones among the keys.
fn put_secrets(out: &mut [u8], at: usize, owners: bool, slots: &[KeySlot]) -> usize
    requires { (length slots.now ≤ key_capacity) × Room out.old at (secret_lines owners (map key_in slots.now)) }
    ensures { Put out.old at (secret_lines owners (map key_in slots.now)) out.new result }
{
    let mut next = at;
    for (k, slot) in slots.iter().enumerate() {
        if let Key::Secret(owner, dummy) = slot.key {
            next = put_secret(out, next, owners, k, owner, dummy);
        }
    }
    next
}

fn put_letters(out: &mut [u8], at: usize, form: Form, turns: &[u8]) -> usize
    requires { Room out.old at (map (letter_of form) (map level_of turns.now)) }
    ensures { Put out.old at (map (letter_of form) (map level_of turns.now)) out.new result }
{
    let mut next = at;
    for &turn in turns {
        next = put_byte(out, next, letter_of(form, turn));
    }
    next
}

// `turns=` and the letters
#[tactic(auto, using(write_text::proofs::Laws::room_first, crate::proofs::Laws::turns_parts))]
fn put_turns(out: &mut [u8], at: usize, form: Form, turns: &[u8]) -> usize
    requires { Room out.old at (turns_lines form (map level_of turns.now)) }
    ensures { Put out.old at (turns_lines form (map level_of turns.now)) out.new result }
{
    let letters = put_word(out, at, b"turns=");
    let end = put_letters(out, letters, form, turns);
    put_byte(out, end, b'\n')
}

// The whole sheet, at the front of the memory.
#[tactic(auto, using(crate::proofs::Laws::inside))]
pub fn put_sheet(out: &mut [u8], job: &StoredJob) -> usize
    requires { HasRoom out.old job.now }
    ensures { Put out.old 0 (sheet_text (job_of job.now)) out.new result }
{
    let form = Form::of(job.form);
    let keys = job.keys;
    let slots = &job.secrets[..keys];
    let commands = &job.commands[..job.command_count];
    let messages = &job.messages[..job.message_count];
    let turns = &job.turns[..job.turn_count];
    let behind_head = put_head(out, 0, job.form, keys);
    let behind_secrets = put_secrets(out, behind_head, form.owners, slots);
    let behind_program = put_commands(out, behind_secrets, commands);
    let behind_messages = put_messages(out, behind_program, messages, keys);
    put_turns(out, behind_messages, form, turns)
}
