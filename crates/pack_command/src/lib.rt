// A command as one number. A function can be lent a memory of numbers, and not one of commands.
//
// The word's place in the table, v, w, k, t and n, from the high bits to the low ones: 4, 3, 3, 4, 16 and 32 of them.
// What was packed comes back; what comes of any other number is not said.
#![tactic(auto)]

ghost use Rattle.std.specs.Prelude.{◌≡◌, ◌<◌, ◌≤◌, ℤ, length};
ghost use Rattle.model.specs.{Accepted.place_of, Accepted.InRange, Stored.command_capacity};
ghost use Rattle.pack_command.specs.Pack.{Packable, Unpacked, command_number, shifted};

use model::{COMMAND_CAPACITY, Command, Op, StoredJob, WORDS};

// How many values there is room for; v and w have the same.
const V_ROOM: u64 = 8;

const K_ROOM: u64 = 16;

const T_ROOM: u64 = 65536;

const N_ROOM: u64 = 4294967296;

// n is kept as what it lies above the least number.
const ABOVE: i64 = 2147483648;

// A word's place in the table.
pub fn number_of(op: Op) -> u64
    ensures { (result ≡ place_of op) × (result < 15) }
{
    op as u64
}

// The words by their places in the table.
const OPS: [Op; WORDS as usize] = [
    Op::Set,
    Op::Add,
    Op::Sub,
    Op::Mul,
    Op::Div,
    Op::Read,
    Op::Has,
    Op::Put,
    Op::Drop,
    Op::IfNeg,
    Op::IfZero,
    Op::Jump,
    Op::Receive,
    Op::Send,
    Op::Stop,
];

// The word at a place; at a number that is no word's place, the last.
pub fn op_at(n: u64) -> Op
    ensures { (op : Op) → n ≡ place_of op → result ≡ op }
{
    OPS[n.min(WORDS as u64 - 1) as usize]
}

fn shift(n: i32) -> u64
    ensures { (result ≡ shifted n) × (result < 4294967296) }
{
    (n as i64 + ABOVE) as u64
}

fn unshift(x: u64) -> i32
    requires { x < 4294967296 }
    ensures { (n : ℤ) → InRange n → x ≡ shifted n → result ≡ n }
{
    (x as i64 - ABOVE) as i32
}

pub fn pack(c: Command) -> u64
    requires { Packable c }
    ensures { result ≡ command_number c }
{
    let vars = (number_of(c.op) * V_ROOM + c.v as u64) * V_ROOM + c.w as u64;
    let all = (vars * K_ROOM + c.k as u64) * T_ROOM + c.t as u64;
    all * N_ROOM + shift(c.n)
}

pub fn unpack(x: u64) -> Command
    ensures { (c : Command) → Packable c → x ≡ command_number c → result ≡ c }
{
    let to_t = x / N_ROOM;
    let to_k = to_t / T_ROOM;
    let to_w = to_k / K_ROOM;
    let to_v = to_w / V_ROOM;
    Command {
        op: op_at(to_v / V_ROOM),
        v: (to_v % V_ROOM) as u8,
        w: (to_w % V_ROOM) as u8,
        k: (to_k % K_ROOM) as u8,
        t: (to_t % T_ROOM) as u32,
        n: unshift(x % N_ROOM),
    }
}

// The commands of these numbers, at the front.
// Called and not inlined, so that what it makes takes no stack while the program is read.
#[inline(never)]
pub fn unpack_all(held: &[u64]) -> [Command; COMMAND_CAPACITY]
    requires { length held.now ≤ command_capacity }
    ensures { Unpacked held.now (length held.now) result }
{
    let mut commands = StoredJob::no_commands();
    for (i, &x) in held.iter().enumerate() {
        commands[i] = unpack(x);
    }
    commands
}
