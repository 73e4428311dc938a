// The fields of a record one by one: whether an owner, a command and the letters are as they must be, and what an
// owner and a command say.
//
// Tests that do not guard one another are joined by `&`, so that there is no branch between them.
#![tactic(auto)]

ghost use Rattle.std.specs.Prelude.{◌≡◌, cond, ◌≤◌};
ghost use Rattle.model.specs.Accepted.{all};
ghost use Rattle.model_record.specs.Record.{owner_fits, owner_of, command_fits, letter_fits, command_of};
ghost use Rattle.read_fields.specs.Fields.{Narrow};

use model::{Command, Form, LAST_VARIABLE, Owner, WORDS};
use model_record::{CommandRecord, OWNER_A, OWNER_B};
use pack_command::op_at;

// Where owners are named, `A` or `B`; else 0.
pub fn owner_fits(owner: u32, owners: bool) -> bool
    ensures { result ≡ owner_fits owners owner }
{
    if owners {
        return (owner == OWNER_A) | (owner == OWNER_B);
    }
    owner == 0
}

pub fn owner_of(owner: u32) -> Owner
    ensures { result ≡ owner_of owner }
{
    if owner == OWNER_B {
        return Owner::B;
    }
    Owner::A
}

// The owner that a number names, where it is as it must be.
pub fn owner_named(owner: u32, owners: bool) -> Option<Owner>
    ensures { result ≡ cond (owner_fits owners owner) (Some (owner_of owner)) None }
{
    if owner_fits(owner, owners) {
        return Some(owner_of(owner));
    }
    None
}

// The most that an operand may be, where the word has it: one that it lacks is 0.
fn limit(has: bool, most: u32) -> u32
    ensures { result ≡ cond has most 0 }
{
    if has { most } else { 0 }
}

// By the places of the words in the table: set 0, add 1 to div 4, read 5, has 6, put 7, drop 8, ifneg 9, ifzero 10,
// jump 11.
pub fn command_fits(c: CommandRecord, keys: u32, count: u32) -> bool
    requires { 1 ≤ keys }
    ensures { result ≡ command_fits keys count c }
{
    let word = c.word;
    let has_v = (word < 8) | (word == 9) | (word == 10);
    let has_w = (0 < word) & (word < 5);
    let has_k = (4 < word) & (word < 9);
    let has_t = (8 < word) & (word < 12);
    let has_n = word == 0;
    (word < WORDS)
        & (c.v <= limit(has_v, LAST_VARIABLE as u32))
        & (c.w <= limit(has_w, LAST_VARIABLE as u32))
        & (c.k <= limit(has_k, keys - 1))
        & (c.t <= limit(has_t, count))
        & (has_n | (c.n == 0))
}

pub fn command_of(c: CommandRecord) -> Command
    requires { Narrow c }
    ensures { result ≡ command_of c }
{
    Command {
        op: op_at(u64::from(c.word)),
        v: c.v as u8,
        w: c.w as u8,
        k: c.k as u8,
        t: c.t,
        n: c.n,
    }
}

// No letter decides what is done next, so that the compiler tests many in one step.
pub fn letters_fit(letters: &[u8], form: Form) -> bool
    ensures { result ≡ all (letter_fits form) letters.now }
{
    let third = form.third();
    let mut fit = true;
    for &b in letters {
        fit &= (b == form.low) | (b == form.high) | (b == third);
    }
    fit
}
