// One piece in machine integers: its value and trend.
#![tactic(auto)]

mod curve;
mod place;
mod slope;

pub use curve::{trend, value};
