// The arithmetic of the commands: i32 through i64, so that every result is exact before it is clamped. Each says
// whether that lay outside the range.
#![tactic(auto)]

ghost use Rattle.std.specs.Prelude.{◌≡◌};
ghost use Rattle.model_run.specs.Arith.{computed as Arith·computed, sum, difference, product, quotient};

use model::{Computed, GREATEST_NUMBER, LEAST_NUMBER};

// The two ends of the range.
const LEAST: i64 = 0 - LEAST_NUMBER as i64;

const GREATEST: i64 = GREATEST_NUMBER as i64;

// What is stored of the exact result x, and 1 if that is another number, else 0: then x lay outside the range. A number
// and no flag, as the definition has it, since it is added: with a flag a run took a fifth more instructions.
fn computed(x: i64) -> Computed
    ensures { result ≡ Arith·computed x }
{
    let value = x.clamp(LEAST, GREATEST);
    Computed {
        value: value as i32,
        clamps: usize::from(value != x),
    }
}

pub fn add(a: i32, b: i32) -> Computed
    ensures { result ≡ sum a b }
{
    computed(i64::from(a) + i64::from(b))
}

pub fn sub(a: i32, b: i32) -> Computed
    ensures { result ≡ difference a b }
{
    computed(i64::from(a) - i64::from(b))
}

pub fn mul(a: i32, b: i32) -> Computed
    ensures { result ≡ product a b }
{
    computed(i64::from(a) * i64::from(b))
}

// Cut toward zero, as the machine's division is; a zero divisor gives 0, which is no clamped result.
pub fn div(a: i32, b: i32) -> Computed
    ensures { result ≡ quotient a b }
{
    if b == 0 {
        return Computed {
            value: 0,
            clamps: 0,
        };
    }
    computed(i64::from(a) / i64::from(b))
}
