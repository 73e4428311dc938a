// Sheets of one form made of those of the other. What that is, and what is claimed of it, is in specs/.
#![tactic(auto)]

// The form asked for.
#[derive(Clone, Copy)]
pub enum Asked {
    One,
    Two,
}
