// A job as a record, over an old one: what the counts do not cover keeps its bytes.
#![tactic(auto)]

ghost use Rattle.std.specs.Prelude.{◌≡◌, map, ◌≤◌, length};
ghost use Rattle.model.specs.{Limits.forms, Placed.front, Stored.key_capacity, Stored.Stored, Stored.job_of};
ghost use Rattle.model.specs.Stored.{key_in, entry_in, entries_in, level_of};
ghost use Rattle.model_sheet.specs.Sheet.{letter_of};
ghost use Rattle.model_record.specs.Record.{owner_number, command_record, message_over, messages_over, record_over};
ghost use Rattle.write_record.specs.Write.{SecretsOver};

use model::{Command, Entry, EntrySlot, Form, Key, KeySlot, MessageLine, Owner, StoredJob};
use model_record::{
    CommandRecord, EntryRecord, JobRecord, MessageRecord, OWNER_A, OWNER_B, SecretRecord,
};
use model_sheet::letter_of;
use pack_command::number_of;

// The owner as a number, where it is named.
fn owner_number(owner: Owner, owners: bool) -> u32
    ensures { result ≡ owner_number owners owner }
{
    if !owners {
        return 0;
    }
    match owner {
        Owner::A => OWNER_A,
        Owner::B => OWNER_B,
    }
}

// The secrets of these keys go to the front; how many they are is given.
fn secrets_over(slots: &[KeySlot], owners: bool, records: &mut [SecretRecord]) -> u32
    requires { (length slots.now ≤ key_capacity) × (length slots.now ≤ length records.old) }
    ensures { SecretsOver owners (map key_in slots.now) records.old result records.new }
{
    let mut count: usize = 0;
    for (k, slot) in slots.iter().enumerate() {
        if let Key::Secret(owner, dummy) = slot.key {
            records[count] = SecretRecord {
                key: k as u32,
                dummy,
                owner: owner_number(owner, owners),
            };
            count += 1;
        }
    }
    count as u32
}

fn command_record(c: Command) -> CommandRecord
    ensures { result ≡ command_record c }
{
    CommandRecord {
        word: number_of(c.op) as u32,
        v: c.v as u32,
        w: c.w as u32,
        k: c.k as u32,
        t: c.t,
        n: c.n,
    }
}

fn commands_over(commands: &[Command], records: &mut [CommandRecord])
    requires { length commands.now ≤ length records.old }
    ensures { records.new ≡ front records.old (map command_record commands.now) }
{
    for (i, &c) in commands.iter().enumerate() {
        records[i] = command_record(c);
    }
}

// The entries of these keys go to the front of the message, which counts them.
fn message_over(slots: &[EntrySlot], mut message: MessageRecord) -> MessageRecord
    requires { length slots.now ≤ key_capacity }
    ensures { result ≡ message_over (map entry_in slots.now) message }
{
    let mut count: usize = 0;
    for (k, slot) in slots.iter().enumerate() {
        if let Entry::Number(value) = slot.entry {
            message.entries[count] = EntryRecord {
                key: k as u32,
                value,
            };
            count += 1;
        }
    }
    message.entry_count = count as u32;
    message
}

fn messages_over(lines: &[MessageLine], keys: usize, records: &mut [MessageRecord])
    requires { (length lines.now ≤ length records.old) × (keys ≤ key_capacity) }
    ensures { records.new ≡ messages_over (map (entries_in keys) lines.now) records.old }
{
    for (i, line) in lines.iter().enumerate() {
        let was = records[i];
        records[i] = message_over(&line.slots[..keys], was);
    }
}

fn letters_over(form: Form, turns: &[u8], letters: &mut [u8])
    requires { length turns.now ≤ length letters.old }
    ensures { letters.new ≡ front letters.old (map (letter_of form) (map level_of turns.now)) }
{
    for (i, &b) in turns.iter().enumerate() {
        letters[i] = letter_of(form, b);
    }
}

pub fn record_over(job: StoredJob, r: &mut JobRecord)
    requires { Stored job × (job.form ≤ forms) }
    ensures { r.new ≡ record_over (job_of job) r.old }
{
    let form = Form::of(job.form);
    r.form = job.form as u32;
    r.keys = job.keys as u32;
    r.secret_count = secrets_over(&job.secrets[..job.keys], form.owners, &mut r.secrets);
    r.command_count = job.command_count as u32;
    commands_over(&job.commands[..job.command_count], &mut r.commands);
    r.message_count = job.message_count as u32;
    messages_over(
        &job.messages[..job.message_count],
        job.keys,
        &mut r.messages,
    );
    r.letter_count = job.turn_count as u32;
    letters_over(form, &job.turns[..job.turn_count], &mut r.letters);
}
