// Takes an export of the belt log from standard input, or from the file that its argument names, and prints the `msg`
// lines; standard error gets `answer=` with the number, the row and the bytes written. As much is lent as any export
// needs. The lines do not depend on whether the answer can be said.
#![tactic(auto)]

use input::Program;
use std::io;

const BELTLOG: Program<'static> = Program {
    name: "beltlog",
    text: "export",
    arguments: "[EXPORT]",
};

const LENT_BYTES: usize = 3712;

fn main(rt: HostRuntime) -> io::Result<()> {
    let mut log = input::buffer();
    let n = match input::text_argument(&rt, &mut log, 1) {
        Ok(n) => n,
        Err(why) => return BELTLOG.complain(&rt, why),
    };
    let mut output = [0u8; LENT_BYTES];
    let (_, printed) = show_log::write_and_print(
        &log[..n],
        &mut output,
        &mut rt.stdout(),
        &mut rt.stderr(),
    );
    printed.text
}
