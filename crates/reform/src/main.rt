// Takes a sheet from standard input, or from the file that its second argument names, and prints it in the form that
// its first argument says, 1 or 2; standard error gets `answer=` with the number, the line and the bytes written. As
// much is lent as any sheet needs. One byte more than the largest sheet is read, so that a longer one is refused. The
// sheet does not depend on whether the answer can be said.
#![tactic(auto)]

use input::{Program, TextError};
use model::MOST_BYTES;
use model_forms::Asked;
use model_sheet::LONGEST_SHEET;
use std::io;

const REFORM: Program<'static> = Program {
    name: "reform",
    text: "sheet",
    arguments: "1|2 [SHEET]",
};

const READ_BYTES: usize = MOST_BYTES + 1;

fn main(rt: HostRuntime) -> io::Result<()> {
    let asked = match input::number_argument(&rt, 1) {
        Ok(1) => Asked::One,
        Ok(2) => Asked::Two,
        _ => return REFORM.complain(&rt, TextError::Misused),
    };
    let mut sheet = [0u8; READ_BYTES];
    let n = match input::text_argument(&rt, &mut sheet, 2) {
        Ok(n) => n,
        Err(TextError::TooLong) => READ_BYTES,
        Err(why) => return REFORM.complain(&rt, why),
    };
    let mut output = [0u8; LONGEST_SHEET];
    let (_, printed) = show_form::turn_and_print(
        &sheet[..n],
        asked,
        &mut output,
        &mut rt.stdout(),
        &mut rt.stderr(),
    );
    printed.text
}
