// The run: its definitions are in specs/, with what is claimed of them, and the theorems in proofs/. There is no function here.
#![tactic(auto)]
