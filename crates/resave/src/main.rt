// Takes a sheet from standard input, or from the file that its argument names, opens it as the screen does and saves it
// again: prints the saved sheet, and standard error gets `answer=` with the number, the line and the bytes written. As
// much is lent as any sheet needs. One byte more than the largest sheet is read, so that a longer one is refused. The
// sheet does not depend on whether the answer can be said.
#![tactic(auto)]

use input::{Program, TextError};
use model::MOST_BYTES;
use model_sheet::LONGEST_SHEET;
use std::io;

const RESAVE: Program<'static> = Program {
    name: "resave",
    text: "sheet",
    arguments: "[SHEET]",
};

const READ_BYTES: usize = MOST_BYTES + 1;

fn main(rt: HostRuntime) -> io::Result<()> {
    let mut sheet = [0u8; READ_BYTES];
    let n = match input::text_argument(&rt, &mut sheet, 1) {
        Ok(n) => n,
        Err(TextError::TooLong) => READ_BYTES,
        Err(why) => return RESAVE.complain(&rt, why),
    };
    let mut output = [0u8; LONGEST_SHEET];
    let (_, printed) = show_record::resave_and_print(
        &sheet[..n],
        &mut output,
        &mut rt.stdout(),
        &mut rt.stderr(),
    );
    printed.text
}
