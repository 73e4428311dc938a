// What is claimed: of the entries in specs/, proved in proofs/, and of all definitions by the index of every claim. There is
// no function here.
#![tactic(auto)]
