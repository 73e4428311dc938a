// The `do` lines of a sheet, and the targets of its commands.
#![tactic(auto)]

ghost use Rattle.std.specs.Prelude.{◌≡◌, ◌+◌, ◌<◌, ◌≤◌, length, nat_lt, position};
ghost use Rattle.model.specs.Form.{Fits};
ghost use Rattle.read_program.specs.Program.{CommandsRead};

use model::{COMMAND_CAPACITY, Command, Fault, Form, Refusal};
use read_command::read_command;
use read_line::{Mark, first_line, on_line};

// The `do` lines at the start of s, of which the first has the number first, as commands at the front of an array; how
// many there are, one at least.
// Called and not inlined: each call's result has a place of its own on the stack of the function that it is inlined
// into, so that all phases of reading would lie there at once.
#[inline(never)]
pub fn read_commands(
    s: &[u8],
    form: Form,
    keys: u64,
    first: u32,
    commands: &mut [Command; COMMAND_CAPACITY],
) -> Result<(usize, Mark), Fault>
    requires { Fits form × (1 ≤ keys) × (keys ≤ form.keys) × (first + length s.now < 4294967296) }
    ensures { CommandsRead form keys s.now first result commands.new }
{
    let mut count: usize = 0;
    let mut line = first;
    let mut at: usize = 0;
    loop {
        let t = &s[at..];
        let Some((v, e)) = first_line(t, b"do=") else {
            if count == 0 {
                return Err(Fault {
                    refusal: Refusal::Misplaced,
                    line,
                });
            }
            return Ok((count, Mark { line, at }));
        };
        if form.commands <= count {
            return Err(Fault {
                refusal: Refusal::TooMany,
                line,
            });
        }
        commands[count] = on_line(read_command(&t[v..e], keys, form.commands as u64), line)?;
        count += 1;
        line += 1;
        at = at + e + 1;
    }
}

// The place of the first command whose target exceeds the count.
pub fn first_far(commands: &[Command]) -> Option<usize>
    ensures { result ≡ position (λ c. nat_lt (length commands.now) c.t) commands.now }
{
    commands.iter().position(|c| commands.len() < c.t as usize)
}
