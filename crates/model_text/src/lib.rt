// The texts that are written: their definitions are in specs/, and the laws that reading gives back what is written in proofs/.
#![tactic(auto)]
