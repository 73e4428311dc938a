// A whole sheet: the job that it says, or the refusal that comes first.
#![tactic(auto)]

ghost use Rattle.std.specs.Prelude.{◌+◌, ◌≤◌, length};
ghost use Rattle.model.specs.{Limits.most_bytes, Text.lines, Stored.command_capacity, Stored.keys_in, Form.Fits};
ghost use Rattle.model.specs.{Sheet.read_body, Sheet.read_lines, Sheet.read_sheet};
ghost use Rattle.read_sheet.specs.Sheet.{Answers, TargetsTold};

use model::{Command, FORMS, Fault, Form, KEY_CAPACITY, KeySlot, MOST_BYTES, Refusal, StoredJob};
use read_head::{number_line, read_secrets};
use read_line::spoilt_line;
use read_messages::read_messages;
use read_program::{first_far, read_commands};
use read_turns::read_turns;

// Every line has passed, and the first command is on the line top: refused where a target exceeds the count.
fn test_targets(commands: &[Command], top: u32) -> Result<(), Fault>
    requires { (length commands.now ≤ command_capacity) × (top ≤ most_bytes + 1) }
    ensures { TargetsTold commands.now top result }
{
    match first_far(commands) {
        None => Ok(()),
        Some(far) => Err(Fault {
            refusal: Refusal::FarTarget,
            line: top + far as u32,
        }),
    }
}

// The lines after the secrets, the first of which is the line top. Each phase reads into the job's own array.
fn read_body(
    s: &[u8],
    form: Form,
    keys: u64,
    secrets: [KeySlot; KEY_CAPACITY],
    top: u32,
) -> Result<StoredJob, Fault>
    requires { Fits form × (1 ≤ keys) × (keys ≤ form.keys) × (top + length s.now ≤ most_bytes + 1) }
    ensures { Answers (read_body form (keys_in keys secrets) keys top (lines s.now)) result }
{
    let mut job = StoredJob::nothing();
    let (commands, behind) = read_commands(s, form, keys, top, &mut job.commands)?;
    let t = &s[behind.at..];
    let (messages, next) = read_messages(t, form, keys, behind.line, &mut job.messages)?;
    let (turns, _) = read_turns(&t[next.at..], form, next.line, &mut job.turns)?;
    test_targets(&job.commands[..commands], top)?;
    job.form = form.number;
    job.keys = keys as usize;
    job.secrets = secrets;
    job.command_count = commands;
    job.message_count = messages;
    job.turn_count = turns;
    Ok(job)
}

// The lines of s from the top.
fn read_lines(s: &[u8]) -> Result<StoredJob, Fault>
    requires { length s.now ≤ most_bytes }
    ensures { Answers (read_lines (lines s.now)) result }
{
    let (number, second) = number_line(s, b"sheet=", FORMS, 1)?;
    let form = Form::of(number);
    let t = &s[second.at..];
    let (keys, third) = number_line(t, b"keys=", form.keys, second.line)?;
    let u = &t[third.at..];
    let (secrets, top) = read_secrets(u, form, keys, third.line)?;
    read_body(&u[top.at..], form, keys, secrets.slots, top.line)
}

// The refusals of the whole sheet come first, and then those of its lines.
pub fn read_sheet(s: &[u8]) -> Result<StoredJob, Fault>
    ensures { Answers (read_sheet s.now) result }
{
    if MOST_BYTES < s.len() {
        return Err(Fault {
            refusal: Refusal::TooLong,
            line: 0,
        });
    }
    let n = spoilt_line(s);
    if n != 0 {
        return Err(Fault {
            refusal: Refusal::Spoilt,
            line: n as u32,
        });
    }
    read_lines(s)
}
