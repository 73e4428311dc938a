// Runs the sheets of the file stdin, which a byte 0 ends each, once on 32,768 bytes and once on 100; the file stdout
// has what a model written apart from this code prints for them.
#![tactic(auto)]

use std::io;
use std::io::Write;

const READ_BYTES: usize = 65536;

fn run_each<W: Write>(
    sheets: &[u8],
    output: &mut [u8],
    few: &mut [u8],
    stdout: &mut W,
) -> io::Result<()> {
    let mut parts = sheets.split(|b| *b == 0);
    // No 0 ends the last part.
    parts.next_back();
    for sheet in parts {
        show::run_and_print(sheet, output, stdout).1?;
        show::run_and_print(sheet, few, stdout).1?;
    }
    Ok(())
}

fn main(rt: HostRuntime) -> io::Result<()> {
    let mut sheets = [0u8; READ_BYTES];
    let mut output = [0u8; 32768];
    let mut few = [0u8; 100];
    let Ok(n) = terminal::read_all(&mut rt.stdin(), &mut sheets) else {
        return Err(io::Error::other("the sheets could not be read"));
    };
    run_each(&sheets[..n], &mut output, &mut few, &mut rt.stdout())
}
