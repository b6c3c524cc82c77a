// One piece in machine integers: its total, by the table of integral weights.
#![tactic(auto)]

mod integral;
mod table;

pub use integral::total;
pub use table::integral_weights;
