// The sum of two lists of knots, each multiplied by a whole number.
#![tactic(auto)]

mod coefficients;
mod sum;

pub use sum::combine;
