// The text of a whole sheet. What it is, and what is claimed of it, is in specs/.
#![tactic(auto)]

ghost use Rattle.std.specs.Prelude.{◌≡◌};
ghost use Rattle.model.specs.Stored.{level_of};
ghost use Rattle.model_sheet.specs.Sheet.{letter_of};

use model::Form;

// No sheet of any form has more bytes: `longest_sheet` of specs/Claims.antt.
pub const LONGEST_SHEET: usize = 6286;

// The letter of the level that a byte stands for, in a form: two choices of a value and no exit, which the processor
// need not foretell.
pub fn letter_of(form: Form, b: u8) -> u8
    ensures { result ≡ letter_of form (level_of b) }
{
    let owned = if b == b'B' { b'B' } else { form.high };
    if b == b'L' { form.low } else { owned }
}
