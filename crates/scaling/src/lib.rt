// Scaling in machine integers, to the nearest.
#![tactic(auto)]

mod fraction;

pub use fraction::{Divisor, Fraction, scaled, scaled_times};
