// The chain of pieces between the knots of a reel: which piece a position is in, which one its trend is taken from, and
// value, trend and total.
#![tactic(auto)]

mod place;
mod queries;

pub use queries::{total, trend, value};
