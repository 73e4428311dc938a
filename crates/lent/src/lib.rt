// Laws of lent memory, in proofs/. There is no function here.
#![tactic(auto)]
