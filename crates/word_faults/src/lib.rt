// The faults of a block, each at its place, and the readings of one knot.
#![tactic(auto)]

mod faults;
mod readings;

pub use faults::{end_fault, header_fault, knot_fault, length_fault};
pub use readings::count_readings;
