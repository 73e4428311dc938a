// Takes a program with blocks from standard input, or from the file that its second argument names, and prints the `do`
// lines for as many keys as its first argument says; standard error gets `answer=` with the number, the line and the
// bytes written. As much is lent as any program needs. The lines do not depend on whether the answer can be said.
#![tactic(auto)]

use input::{Program, TextError};
use std::io;

const BLOCKS: Program<'static> = Program {
    name: "blocks",
    text: "program",
    arguments: "K [FILE]",
};

const LENT_BYTES: usize = 1344;

fn main(rt: HostRuntime) -> io::Result<()> {
    let Ok(keys) = input::number_argument(&rt, 1) else {
        return BLOCKS.complain(&rt, TextError::Misused);
    };
    let mut text = input::buffer();
    let n = match input::text_argument(&rt, &mut text, 2) {
        Ok(n) => n,
        Err(why) => return BLOCKS.complain(&rt, why),
    };
    let mut output = [0u8; LENT_BYTES];
    let (_, printed) = show_blocks::translate_and_print(
        &text[..n],
        keys,
        &mut output,
        &mut rt.stdout(),
        &mut rt.stderr(),
    );
    printed.text
}
