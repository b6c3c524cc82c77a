// What each call answers and leaves. No functions: definitions in specs/, laws in proofs/.
#![tactic(auto)]
