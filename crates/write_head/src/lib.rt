// The first lines of a sheet: `sheet` and `keys`, and a `secret` line with its owner where it is named.
#![tactic(auto)]

ghost use Rattle.std.specs.Prelude.{◌≡◌, ◌<◌, ◌≤◌};
ghost use Rattle.model.specs.{Limits.forms, Stored.key_capacity};
ghost use Rattle.model_sheet.specs.Sheet.{head_lines, owner_letter, owner_text};
ghost use Rattle.write_text.specs.Put.{Put, Room};
ghost use Rattle.write_head.specs.Head.{form_text, secret_ended};

use model::Owner;
use write_messages::put_pair;
use write_text::{put_byte, put_natural, put_word};

// `sheet=`, the number of the form, a line feed and `keys=`
#[tactic(auto, using(write_text::proofs::Laws::room_first, crate::proofs::Laws::form_parts))]
fn put_form(out: &mut [u8], at: usize, form: u64) -> usize
    requires { (form ≤ forms) × Room out.old at (form_text form) }
    ensures { Put out.old at (form_text form) out.new result }
{
    let number = put_word(out, at, b"sheet=");
    let end = put_natural(out, number, form as u32);
    put_word(out, end, b"\nkeys=")
}

// the lines `sheet` and `keys`
pub fn put_head(out: &mut [u8], at: usize, form: u64, keys: usize) -> usize
    requires { (form ≤ forms) × (keys ≤ key_capacity) × Room out.old at (head_lines form keys) }
    ensures { Put out.old at (head_lines form keys) out.new result }
{
    let number = put_form(out, at, form);
    let end = put_natural(out, number, keys as u32);
    put_byte(out, end, b'\n')
}

fn owner_letter(owner: Owner) -> u8
    ensures { result ≡ owner_letter owner }
{
    match owner {
        Owner::A => b'A',
        Owner::B => b'B',
    }
}

// A colon and the owner, where it is named.
#[tactic(auto, using(write_text::proofs::Laws::rooms, write_text::proofs::Laws::put_nothing))]
fn put_owner(out: &mut [u8], at: usize, owners: bool, owner: Owner) -> usize
    requires { Room out.old at (owner_text owners owner) }
    ensures { Put out.old at (owner_text owners owner) out.new result }
{
    if owners {
        let letter = put_byte(out, at, b':');
        return put_byte(out, letter, owner_letter(owner));
    }
    at
}

#[tactic(auto, using(write_text::proofs::Laws::room_first, crate::proofs::Laws::secret_parts))]
pub fn put_secret(
    out: &mut [u8],
    at: usize,
    owners: bool,
    k: usize,
    owner: Owner,
    dummy: i32,
) -> usize
    requires { (k < key_capacity) × Room out.old at (secret_ended owners k owner dummy) }
    ensures { Put out.old at (secret_ended owners k owner dummy) out.new result }
{
    let pair = put_word(out, at, b"secret=");
    let end = put_pair(out, pair, k, dummy);
    let named = put_owner(out, end, owners, owner);
    put_byte(out, named, b'\n')
}
