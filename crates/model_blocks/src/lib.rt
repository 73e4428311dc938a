// Programs with blocks: the definitions are in specs/, what is proved of them in proofs/.
#![tactic(auto)]
