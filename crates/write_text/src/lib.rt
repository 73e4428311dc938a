// Texts in lent memory: digits, bytes, words and numbers, each stored from a place on.
//
// What begins with `put` gives the place behind its text. Put into no memory at all, a text is counted and nothing is
// stored: so one function both tells a text's length and writes it.
#![tactic(auto)]

ghost use Rattle.std.specs.Prelude.{◌≡◌, [], ◌∷◌, ◌+◌, ◌≤◌};
ghost use lib.ListN.{length};
ghost use Rattle.model.specs.{Placed.placed, Decimal.digits, Decimal.width, Decimal.natural, Decimal.whole};
ghost use Rattle.write_text.specs.Put.{Put, Room, byte_if, signed};

// Puts the last width digits of n at the place at of out.
pub fn spell(out: &mut [u8], at: usize, width: usize, n: u32)
    requires { at + width ≤ length out.old }
    ensures { out.new ≡ placed out.old at (digits width n) }
{
    let mut rest = n;
    for i in (0..width).rev() {
        out[at + i] = b'0' + (rest % 10) as u8;
        rest /= 10;
    }
}

// How many digits a number has.
fn width_of(n: u32) -> usize
    ensures { result ≡ width n }
{
    n.max(1).ilog10() as usize + 1
}

#[tactic(auto, using(crate::proofs::Laws::stored))]
pub fn put_byte(out: &mut [u8], at: usize, b: u8) -> usize
    requires { Room out.old at (b ∷ []) }
    ensures { Put out.old at (b ∷ []) out.new result }
{
    let next = at + 1;
    if at < out.len() {
        out[at] = b;
    }
    next
}

// A byte where it is wanted, and nothing where it is not. What follows is put in one place of the code for both.
#[tactic(auto, using(crate::proofs::Laws::put_nothing))]
pub fn put_if(out: &mut [u8], at: usize, wanted: bool, b: u8) -> usize
    requires { Room out.old at (byte_if wanted b) }
    ensures { Put out.old at (byte_if wanted b) out.new result }
{
    if wanted {
        return put_byte(out, at, b);
    }
    at
}

// Byte by byte: `copy_from_slice` of a word whose length is not known is compiled to a call of `memmove`, which the
// archive needs for nothing else.
pub fn put_word(out: &mut [u8], at: usize, word: &[u8]) -> usize
    requires { Room out.old at word.now }
    ensures { Put out.old at word.now out.new result }
{
    for (i, &b) in word.iter().enumerate() {
        put_byte(out, at + i, b);
    }
    at + word.len()
}

// A number at its natural width.
#[tactic(auto, using(crate::proofs::Laws::stored))]
pub fn put_natural(out: &mut [u8], at: usize, n: u32) -> usize
    requires { Room out.old at (natural n) }
    ensures { Put out.old at (natural n) out.new result }
{
    let w = width_of(n);
    let next = at + w;
    if at < out.len() {
        spell(out, at, w, n);
    }
    next
}

// A number by its sign and its size.
#[tactic(auto, using(crate::proofs::Laws::rooms))]
pub fn put_signed(out: &mut [u8], at: usize, minus: bool, size: u32) -> usize
    requires { Room out.old at (signed minus size) }
    ensures { Put out.old at (signed minus size) out.new result }
{
    let next = put_if(out, at, minus, b'-');
    put_natural(out, next, size)
}

// A number of the full range: a minus sign before a negative one, and no plus sign.
pub fn put_whole(out: &mut [u8], at: usize, x: i32) -> usize
    requires { Room out.old at (whole x) }
    ensures { Put out.old at (whole x) out.new result }
{
    put_signed(out, at, x < 0, x.unsigned_abs())
}
