// Reads a sheet from standard input, runs it on 32,768 bytes, and prints the sent lines and the seven numbers. One byte
// more than the largest sheet is read, so that a longer one is refused. Where a read fails, nothing is run and standard
// error says so.
#![tactic(auto)]

use model::MOST_BYTES;
use std::io;

const READ_BYTES: usize = MOST_BYTES + 1;

const LENT_BYTES: usize = 32768;

fn main(rt: HostRuntime) -> io::Result<()> {
    let mut sheet = [0u8; READ_BYTES];
    let mut output = [0u8; LENT_BYTES];
    let Ok(n) = terminal::read_all(&mut rt.stdin(), &mut sheet) else {
        return eprintln!(rt; "runsheet: standard input could not be read");
    };
    let (_, printed) = show::run_and_print(&sheet[..n], &mut output, &mut rt.stdout());
    printed
}
