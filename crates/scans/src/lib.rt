// Lists of scans: document 01's reel, its refusals, and the pieces with their queries. No functions: definitions in
// specs/, laws in proofs/.
#![tactic(auto)]
