// The size of a number with a sign.
#![tactic(auto)]

mod size;

pub use size::magnitude;
