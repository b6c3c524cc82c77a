// What refuses a knot after another, and what is too large of a knot between its neighbours.
#![tactic(auto)]

mod causes;

pub use causes::{follow_reason, list_cause, neighbour_position, position_cause, size_reason};
