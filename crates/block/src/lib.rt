// Blocks: what they are, that reading undoes writing, and writing reading in edition 1; and the readings beside their
// knots. No functions: definitions in specs/, laws in proofs/; the reader, the writer and the view stand above.
#![tactic(auto)]

// Editions are numbers, and no enum: a header can have any, and most of them are refused.
pub const PLAIN_EDITION: u8 = 1;

pub const READINGS_EDITION: u8 = 2;

// of one that is accepted, in bytes
pub const BLOCK_MAX: usize = 21_164;
