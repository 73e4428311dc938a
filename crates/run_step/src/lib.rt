// One command of one execution.
#![tactic(auto)]

ghost use Rattle.std.specs.Prelude.{◌≡◌, ◌<◌, ◌≤◌};
ghost use Rattle.model.specs.{Limits.variables};
ghost use Rattle.model_run.specs.{Step.variable, Step.number_of, Step.computes, Step.effect_of, Step.call_of};

use model::{Call, Command, Computed, Effect, Entry, Execution, Op};
use run_arith::{add, div, mul, sub};

fn number_of(e: Entry) -> i32
    ensures { result ≡ number_of e }
{
    match e {
        Entry::Absent => 0,
        Entry::Number(n) => n,
    }
}

// The effect of an operation that gives this, where otherwise it would be the effect `next`.
fn computed(next: Effect, res: Computed) -> Effect
    requires { (next.clamped < 4294967296) × (res.clamps ≤ 1) }
    ensures { result ≡ computes next.place res next.entry next.clamped }
{
    Effect {
        value: res.value,
        clamped: next.clamped + res.clamps,
        ..next
    }
}

// A command at the place p of a program that ends at the place end; a and b are what its variables hold, e is the entry
// at its key, m the clamped results so far. These are no struct: it would be made for one call and taken apart in it.
pub fn effect_at(c: Command, p: usize, a: i32, b: i32, e: Entry, m: usize, end: usize) -> Effect
    requires { (p < end) × (m < 4294967296) }
    ensures { result ≡ effect_of c p a b e m end }
{
    let next = Effect {
        place: p + 1,
        value: a,
        clamped: m,
        entry: e,
    };
    match c.op {
        Op::Set => Effect { value: c.n, ..next },
        Op::Add => computed(next, add(a, b)),
        Op::Sub => computed(next, sub(a, b)),
        Op::Mul => computed(next, mul(a, b)),
        Op::Div => computed(next, div(a, b)),
        Op::Read => Effect {
            value: number_of(e),
            ..next
        },
        Op::Has => Effect {
            value: i32::from(e != Entry::Absent),
            ..next
        },
        Op::Put => Effect {
            entry: Entry::Number(a),
            ..next
        },
        Op::Drop => Effect {
            entry: Entry::Absent,
            ..next
        },
        Op::IfNeg => Effect {
            place: if a < 0 { c.t as usize } else { next.place },
            ..next
        },
        Op::IfZero => Effect {
            place: if a == 0 { c.t as usize } else { next.place },
            ..next
        },
        Op::Jump => Effect {
            place: c.t as usize,
            ..next
        },
        Op::Receive | Op::Send => next,
        Op::Stop => Effect { place: end, ..next },
    }
}

#[tactic(auto, unfolding(model_run::specs::Step::call_of))]
pub fn call_of(op: Op) -> Call
    ensures { result ≡ call_of op }
{
    match op {
        Op::Receive => Call::Receives,
        Op::Send => Call::Sends,
        _ => Call::Neither,
    }
}

// What the variable v of a record holds. The places are constants, as in `Execution::after`.
pub fn holds(x: Execution, v: usize) -> i32
    requires { v < variables }
    ensures { result ≡ variable x v }
{
    match v {
        0 => x.vars[0],
        1 => x.vars[1],
        2 => x.vars[2],
        3 => x.vars[3],
        4 => x.vars[4],
        5 => x.vars[5],
        6 => x.vars[6],
        _ => x.vars[7],
    }
}
