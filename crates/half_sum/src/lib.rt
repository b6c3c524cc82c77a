// Half-sums in machine integers: rounds of running sums, and the steps.
#![tactic(auto)]

mod running;
mod steps;

pub use running::rounds;
pub use steps::{VALUE_UNIT, lower_step_3, lower_steps_1_and_2, steps_1_and_2};
