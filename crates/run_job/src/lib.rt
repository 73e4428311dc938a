// The run: three executions over one message, turn by turn, to an ending.
#![tactic(auto)]

ghost use Rattle.std.specs.Prelude.{◌≡◌, ◌+◌, ◌*◌, ◌<◌, ◌≤◌, length, drop};
ghost use Rattle.model_run.specs.{Run.run_job, Whole.left, Whole.left_by, Message.received, Line.line_bytes, Step.call_of};
ghost use Rattle.model.specs.{Stored.job_of, Stored.Stored, Stored.held, Stored.key_capacity, Accepted.Sound, Limits.variables, Placed.placed, Answer.ended_as};
ghost use Rattle.model.specs.declared.{Level.Level};
ghost use Rattle.write_line.specs.Line.{columns_in, line_of};
ghost use Rattle.run_job.specs.Command.{moved_by, followed_by};

use model::{
    Call, Clock, Command, Ended, Ending, Execution, Field, LETTER_CAPACITY, Level, Owner, StoredJob,
};
use run_message::{cleared, received, side, with};
use run_step::{call_of, effect_at, holds};
use run_verdict::{ended, level_of, made_call, readable, taken_after, ticked, waits};
use write_line::{heading, key_cell, line_end};

// One command of a level's execution, of this kind of call: of its record and of the message only what changes moves.
#[inline(always)]
fn step(c: Command, call: Call, level: Level, x: &mut Execution, message: &mut [Field], end: usize)
    requires kind { call ≡ call_of c.op }
    requires key { c.k < length message.old }
    requires v { c.v < variables }
    requires w { c.w < variables }
    requires place { x.old.place < end }
    requires calls { x.old.calls < 4294967296 }
    requires clamped { x.old.clamped < 4294967296 }
    ensures { record { execution = x.new; message = message.new } ≡ moved_by end c level x.old message.old }
{
    let k = usize::from(c.k);
    let v = usize::from(c.v);
    let w = usize::from(c.w);
    let f = message[k];
    let e = side(f, level);
    let effect = effect_at(c, x.place, x.vars[v], x.vars[w], e, x.clamped, end);
    let next = x.after(v, call, effect);
    x.vars[v] = holds(next, v);
    x.place = next.place;
    x.calls = next.calls;
    x.clamped = next.clamped;
    message[k] = with(f, level, effect.entry);
}

// A turn of an owner's execution, where the low one has made so many calls of these kinds.
#[inline(always)]
fn follow(
    job: &StoredJob,
    level: Level,
    x: &mut Execution,
    message: &mut [Field],
    calls: usize,
    kinds: &[Call],
)
    requires sound { Sound (job_of job.now) × Stored job.now }
    requires fields { length message.old ≡ key_capacity }
    requires calls { (x.old.calls < length kinds.now) × (x.old.calls < 4294967296) }
    requires clamped { x.old.clamped < 4294967296 }
    ensures { record { execution = x.new; message = message.new } ≡ followed_by job.now level x.old message.old calls kinds.now }
{
    if x.place < job.command_count {
        let c = job.commands[x.place];
        let call = call_of(c.op);
        let j = x.calls;
        if !waits(call, made_call(j, calls, kinds[j])) {
            step(c, call, level, x, message, job.command_count);
        }
    }
}

// What a receive does to the message: the next line fills it, where there is one more.
fn receive(job: &StoredJob, message: &mut [Field], taken: usize)
    requires sound { Sound (job_of job.now) × Stored job.now }
    requires fields { length message.old ≡ key_capacity }
    ensures { (l : Level) → held job.now.keys message.new l ≡ received (job_of job.now).keys (drop taken (job_of job.now).messages) l }
{
    let more = taken < job.message_count;
    let line = job.messages[readable(taken, job.message_count)];
    for k in 0..job.keys {
        message[k] = received(job.secrets[k], more, line.slots[k]);
    }
}

// What a send writes: the line of a position, from the byte `bytes` on.
fn send(job: &StoredJob, message: &[Field], out: &mut [u8], bytes: usize, at: usize)
    requires sound { Sound (job_of job.now) × Stored job.now }
    requires fields { length message.now ≡ key_capacity }
    requires room { bytes + (10 + 12 * job.now.keys) ≤ length out.old }
    requires at { at < 10000 }
    ensures { out.new ≡ placed out.old bytes (line_bytes (line_of at (columns_in job.now.keys job.now.secrets message.now))) }
{
    heading(out, bytes, at);
    for k in 0..job.keys {
        key_cell(out, bytes, k, job.secrets[k], message[k]);
    }
    line_end(out, bytes, job.keys);
}

// A job that reading gave, with an output memory.
//
// Per turn only one command, one entry, what changes of one record and the kind of one call move. An ending is tested
// where it can come about: the room at a send, the stop after a low step, and behind the letters that they are used.
// Each kind of low turn ends by itself: with one end for all three, a turn takes the compiled run 7 instructions more.
// Called and not inlined, so that what a run holds takes no stack while the sheet is read.
#[inline(never)]
pub fn run_job(job: StoredJob, out: &mut [u8]) -> Ended
    requires { Sound (job_of job) × Stored job }
    ensures { left (ended_as result) out.new ≡ left_by out.old (run_job (job_of job) (length out.old)) }
{
    let count = job.command_count;
    let line_bytes = 10 + 12 * job.keys;
    let mut low = Execution::begun();
    let mut a = Execution::begun();
    let mut b = Execution::begun();
    let mut message = cleared();
    // The kinds of the low calls: there are no more of them than letters.
    let mut kinds = [Call::Neither; LETTER_CAPACITY];
    let mut clock = Clock::default();
    let mut bytes: usize = 0;
    let mut taken: usize = 0;
    for at in 0..job.turn_count {
        match level_of(job.turns[at]) {
            Level::Low => {
                let c = job.commands[low.place];
                match call_of(c.op) {
                    Call::Receives => {
                        receive(&job, &mut message, taken);
                        taken = taken_after(taken, job.message_count);
                        kinds[low.calls] = Call::Receives;
                        let next = low.called();
                        low.place = next.place;
                        low.calls = next.calls;
                        clock = ticked(clock, Level::Low);
                        if count <= low.place {
                            return ended(Ending::Stopped, clock, bytes, taken, low.clamped);
                        }
                    }
                    Call::Sends => {
                        if out.len() - bytes < line_bytes {
                            return ended(Ending::NoRoom, clock, bytes, taken, low.clamped);
                        }
                        send(&job, &message, out, bytes, at);
                        bytes += line_bytes;
                        kinds[low.calls] = Call::Sends;
                        let next = low.called();
                        low.place = next.place;
                        low.calls = next.calls;
                        clock = ticked(clock, Level::Low);
                        if count <= low.place {
                            return ended(Ending::Stopped, clock, bytes, taken, low.clamped);
                        }
                    }
                    Call::Neither => {
                        step(
                            c,
                            Call::Neither,
                            Level::Low,
                            &mut low,
                            &mut message,
                            job.command_count,
                        );
                        clock = ticked(clock, Level::Low);
                        if count <= low.place {
                            return ended(Ending::Stopped, clock, bytes, taken, low.clamped);
                        }
                    }
                }
            }
            Level::High(Owner::A) => {
                follow(
                    &job,
                    Level::High(Owner::A),
                    &mut a,
                    &mut message,
                    low.calls,
                    &kinds,
                );
                clock = ticked(clock, Level::High(Owner::A));
            }
            Level::High(Owner::B) => {
                follow(
                    &job,
                    Level::High(Owner::B),
                    &mut b,
                    &mut message,
                    low.calls,
                    &kinds,
                );
                clock = ticked(clock, Level::High(Owner::B));
            }
        }
    }
    ended(Ending::LettersUsed, clock, bytes, taken, low.clamped)
}
