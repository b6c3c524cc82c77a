// Document 01's rounding steps on one piece. No functions: definitions in specs/, laws in proofs/.
#![tactic(auto)]

// The parts of a step that query positions are in.
pub const POSITION_UNIT: u64 = 256;
