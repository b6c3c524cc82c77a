// The laws of whole numbers that the toolchain lacks. No functions: definitions in specs/, laws and tools in proofs/.
#![tactic(auto)]
