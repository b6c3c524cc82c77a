// The held reel with its calls, and the reasons of a 6.
#![tactic(auto)]

mod answer;
mod held;
mod reasons;

pub use answer::{Answer, Handed};
pub use held::Reel;
