// The parts of one turn that are no command: whose turn it is, whether a high execution waits, what a receive takes,
// the clock, what a run that ends comes to.
#![tactic(auto)]

ghost use Rattle.std.specs.Prelude.{◌≡◌, cond, ◌+◌, ◌<◌, ltb};
ghost use Rattle.model_run.specs.{Verdict.waits as Verdict·waits, State.ticked as Clock·ticked};
ghost use Rattle.model.specs.{Stored.level_of};
ghost use Rattle.model.specs.declared.{Call.TheVariants.Neither};
ghost use Rattle.run_verdict.specs.Verdict.{CountsFit, counts_as, kind_of};

use model::{Call, Clock, Counts, Ended, Ending, Level, Owner};

// A receive as a byte; any other byte is a send.
const RECEIVED: u8 = 0;

// The level whose turn a letter is.
pub fn level_of(letter: u8) -> Level
    ensures { result ≡ level_of letter }
{
    match letter {
        b'L' => Level::Low,
        b'B' => Level::High(Owner::B),
        _ => Level::High(Owner::A),
    }
}

// A place that can be read: i itself below n, else 0.
pub fn readable(i: usize, n: usize) -> usize
    ensures { result ≡ cond (ltb i n) i 0 }
{
    if i < n { i } else { 0 }
}

// The message lines taken after a receive.
pub fn taken_after(taken: usize, lines: usize) -> usize
    ensures { result ≡ cond (ltb taken lines) (taken + 1) taken }
{
    if taken < lines { taken + 1 } else { taken }
}

// The kind of the low call number j, counted from 0, of n that are made; kind is what is stored for it. Neither where
// it is not made yet.
pub fn made_call(j: usize, n: usize, kind: Call) -> Call
    ensures { result ≡ cond (ltb j n) kind Neither }
{
    if j < n { kind } else { Call::Neither }
}

// The kind of call that a byte stands for.
fn kind_of(kind: u8) -> Call
    ensures { result ≡ kind_of kind }
{
    match kind {
        RECEIVED => Call::Receives,
        _ => Call::Sends,
    }
}

// As `made_call`, where what is stored for the call is a byte.
pub fn made(j: usize, n: usize, kind: u8) -> Call
    ensures { result ≡ cond (ltb j n) (kind_of kind) Neither }
{
    made_call(j, n, kind_of(kind))
}

// Whether an execution that follows waits at its call: the low call of the same number has not been made, or was of
// the other kind. By kinds and no comparison of the two: with one, an owner's call takes the compiled run 16
// instructions more.
#[tactic(auto, unfolding(model_run::specs::Verdict::waits))]
pub fn waits(call: Call, low: Call) -> bool
    ensures { result ≡ Verdict·waits call low }
{
    match call {
        Call::Neither => false,
        Call::Receives => low != Call::Receives,
        Call::Sends => low != Call::Sends,
    }
}

// The clock after a turn of a level, of which the low one's are the low steps.
pub fn ticked(clock: Clock, level: Level) -> Clock
    requires { (clock.positions < 4294967296) × (clock.steps < 4294967296) }
    ensures { result ≡ Clock·ticked level clock }
{
    Clock {
        positions: clock.positions + 1,
        steps: clock.steps + usize::from(level == Level::Low),
    }
}

// What a run that ends so comes to, with the clamped results of the low execution.
pub fn ended(ending: Ending, clock: Clock, bytes: usize, taken: usize, clamped: usize) -> Ended
    requires { CountsFit clock bytes taken clamped }
    ensures { result ≡ record { ending = ending; counts = counts_as clock bytes taken clamped } }
{
    Ended {
        ending,
        counts: Counts {
            positions: clock.positions as u32,
            steps: clock.steps as u32,
            bytes: bytes as u32,
            taken: taken as u32,
            clamped: clamped as u32,
        },
    }
}
