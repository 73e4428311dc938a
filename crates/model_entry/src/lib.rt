// The contracts of the C entries are in specs/.
#![tactic(auto)]
