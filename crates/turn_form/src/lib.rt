// A job of one form made one of the other: only the number of its form changes.
#![tactic(auto)]

ghost use Rattle.std.specs.Prelude.{◌≡◌, map};
ghost use Rattle.model.specs.{Stored.key_in, Stored.level_of, Stored.Stored, Stored.job_of, Accepted.Sound, Accepted.all};
ghost use Rattle.model_change.specs.Changed.{Comes};
ghost use Rattle.model_forms.specs.Forms.{number, key_a, turn_a, says as says_in, turn as turns};

use model::{Key, KeySlot, Owner, Refusal, StoredJob};
use model_forms::Asked;

fn number_of(asked: Asked) -> u64
    ensures { result ≡ number asked }
{
    match asked {
        Asked::One => 1,
        Asked::Two => 2,
    }
}

// Whether a key is none of B's.
fn is_a(key: Key) -> bool
    ensures { result ≡ key_a key }
{
    !matches!(key, Key::Secret(Owner::B, _))
}

fn keys_a(slots: &[KeySlot]) -> bool
    ensures { result ≡ all key_a (map key_in slots.now) }
{
    slots.iter().all(|slot| is_a(slot.key))
}

// No letter decides what is done next, so that the compiler tests many in one step.
fn turns_a(turns: &[u8]) -> bool
    ensures { result ≡ all turn_a (map level_of turns.now) }
{
    let mut known = true;
    for &b in turns {
        known &= b != b'B';
    }
    known
}

// Whether the form asked for can say the job. The second says all.
fn says(job: &StoredJob, asked: Asked) -> bool
    requires { Sound (job_of job.now) × Stored job.now }
    ensures { result ≡ says_in asked (job_of job.now) }
{
    match asked {
        Asked::One => { keys_a(&job.secrets[..job.keys]) && turns_a(&job.turns[..job.turn_count]) }
        Asked::Two => true,
    }
}

// The job in the form asked for.
pub fn turn(mut job: StoredJob, asked: Asked) -> Result<StoredJob, Refusal>
    requires { Sound (job_of job) × Stored job }
    ensures { Comes (turns asked (job_of job)) result }
{
    let form = number_of(asked);
    if job.form == form {
        return Err(Refusal::HasForm);
    }
    if !says(&job, asked) {
        return Err(Refusal::Unsayable);
    }
    job.form = form;
    Ok(job)
}
