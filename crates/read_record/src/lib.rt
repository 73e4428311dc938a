// The job that a record says, unless a number, a count, a letter or the order of the keys is not as it must be.
//
// A count is tested before anything that it covers is looked at. Tests of one element that do not guard one another are
// joined by `&`, so that there is no branch between them.
#![tactic(auto)]

ghost use Rattle.std.specs.Prelude.{◌≡◌, ◌≤◌, length};
ghost use Rattle.model.specs.{Stored.key_capacity, Stored.command_capacity, Stored.message_capacity, Stored.nothing_stored};
ghost use Rattle.model.specs.Accepted.{all};
ghost use Rattle.model_record.specs.Record.{counts_fit, secrets_fit, command_fits, message_fits, passes};
ghost use Rattle.read_record.specs.Read.{Gives, Hidden, Taken, Line, Lines, Said, Emptied};

use model::{
    COMMAND_CAPACITY, Command, Entry, EntrySlot, FORMS, Form, KEY_CAPACITY, Key, KeySlot,
    LETTER_CAPACITY, MESSAGE_CAPACITY, MessageLine, StoredJob,
};
use model_record::{CommandRecord, JobRecord, MessageRecord, SecretRecord};
use read_fields::{command_fits, command_of, letters_fit, owner_named};

fn secrets_of(
    secrets: &[SecretRecord],
    keys: usize,
    owners: bool,
) -> Option<[KeySlot; KEY_CAPACITY]>
    requires { keys ≤ key_capacity }
    ensures { Gives (secrets_fit owners keys secrets.now) (Hidden keys secrets.now) result }
{
    let mut slots = StoredJob::open_keys();
    let mut next: usize = 0;
    for s in secrets {
        let key = s.key as usize;
        let owner = owner_named(s.owner, owners)?;
        let fits = (next <= key) & (key < keys);
        if !fits {
            return None;
        }
        slots[key] = KeySlot {
            key: Key::Secret(owner, s.dummy),
        };
        next = key + 1;
    }
    Some(slots)
}

fn commands_of(commands: &[CommandRecord], keys: u32) -> Option<[Command; COMMAND_CAPACITY]>
    requires { (length commands.now ≤ command_capacity) × (1 ≤ keys) × (keys ≤ key_capacity) }
    ensures { Gives (all (command_fits keys (length commands.now)) commands.now) (Taken commands.now) result }
{
    let mut taken = StoredJob::no_commands();
    let count = commands.len() as u32;
    for (i, &c) in commands.iter().enumerate() {
        if !command_fits(c, keys, count) {
            return None;
        }
        taken[i] = command_of(c);
    }
    Some(taken)
}

// The entries of a message, of which there are at most so many as keys: how many is tested before they are looked at.
fn entries_of(message: &MessageRecord, keys: usize) -> Option<MessageLine>
    requires { keys ≤ key_capacity }
    ensures { Gives (message_fits keys message.now) (Line keys message.now) result }
{
    let count = message.entry_count as usize;
    if keys < count {
        return None;
    }
    let entries = &message.entries[..count];
    let mut slots = MessageLine::no_entries();
    let mut next: usize = 0;
    for e in entries {
        let key = e.key as usize;
        let rises = (next <= key) & (key < keys);
        if !rises {
            return None;
        }
        slots[key] = EntrySlot {
            entry: Entry::Number(e.value),
        };
        next = key + 1;
    }
    Some(MessageLine { slots })
}

fn messages_of(messages: &[MessageRecord], keys: usize) -> Option<[MessageLine; MESSAGE_CAPACITY]>
    requires { (length messages.now ≤ message_capacity) × (keys ≤ key_capacity) }
    ensures { Gives (all (message_fits keys) messages.now) (Lines keys messages.now) result }
{
    let mut taken = StoredJob::no_messages();
    for (i, m) in messages.iter().enumerate() {
        taken[i] = entries_of(m, keys)?;
    }
    Some(taken)
}

fn counts_fit(r: &JobRecord) -> bool
    ensures { result ≡ counts_fit r.now }
{
    let form = Form::of(r.form as u64);
    (1 <= r.form)
        & (r.form as u64 <= FORMS)
        & (1 <= r.keys)
        & (r.keys as u64 <= form.keys)
        & (r.secret_count <= r.keys)
        & (1 <= r.command_count)
        & (r.command_count as usize <= form.commands)
        & (r.message_count as usize <= form.messages)
        & (1 <= r.letter_count)
        & (r.letter_count as usize <= form.letters)
}

// The parts one after the other, each into the job as soon as it is read.
#[inline(always)]
fn read_parts(r: JobRecord, job: &mut StoredJob) -> Option<()>
    ensures { Gives (passes r) (Said r job.new) result }
{
    if !counts_fit(&r) {
        return None;
    }
    let keys = r.keys as usize;
    let command_count = r.command_count as usize;
    let message_count = r.message_count as usize;
    let turn_count = r.letter_count as usize;
    let form = Form::of(r.form as u64);
    let dummies = &r.secrets[..r.secret_count as usize];
    let program = &r.commands[..command_count];
    let queue = &r.messages[..message_count];
    let letters = &r.letters[..turn_count];
    job.secrets = secrets_of(dummies, keys, form.owners)?;
    job.commands = commands_of(program, r.keys)?;
    job.messages = messages_of(queue, keys)?;
    if !letters_fit(letters, form) {
        return None;
    }
    job.form = r.form as u64;
    job.keys = keys;
    job.command_count = command_count;
    job.message_count = message_count;
    job.turn_count = turn_count;
    job.turns = r.letters;
    Some(())
}

// Part by part, so that no second job stands beside the caller's.
fn empty(job: &mut StoredJob)
    ensures { job.new ≡ nothing_stored }
{
    job.form = 1;
    job.keys = 0;
    job.secrets = StoredJob::open_keys();
    job.command_count = 0;
    job.commands = StoredJob::no_commands();
    job.message_count = 0;
    job.messages = StoredJob::no_messages();
    job.turn_count = 0;
    job.turns = [0; LETTER_CAPACITY];
}

// Any record at all is taken. Its job goes into the caller's: answered by value, it would take 2 KB more of stack.
// Where the record does not pass, the caller's job is the one whose counts are all 0.
pub fn read_record(r: JobRecord, job: &mut StoredJob) -> Option<()>
    ensures passing { Gives (passes r) (Said r job.new) result }
    ensures refused { Emptied job.new result }
{
    match read_parts(r, job) {
        Some(()) => Some(()),
        None => {
            empty(job);
            None
        }
    }
}
