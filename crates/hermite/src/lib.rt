// The exact mathematics of one piece. No functions: definitions in specs/, laws in proofs/.
#![tactic(auto)]
