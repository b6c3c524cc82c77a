// Whether two lists of knots are the same, as the call Same asks, or at least have the same positions and grades.
#![tactic(auto)]

mod alignment;
mod knots;
mod pairs;

pub use alignment::all_aligned;
pub use knots::same;
