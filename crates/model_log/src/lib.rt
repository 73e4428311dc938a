// Messages out of the belt log: the definitions are in specs/, what is proved of them in proofs/.
#![tactic(auto)]
