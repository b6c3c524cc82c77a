// The weights of a knot in machine integers.
#![tactic(auto)]

mod powers;

pub use powers::{primed, right_weights, weights};
