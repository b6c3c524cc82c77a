// A knot, the size rule of one list, the limits, the refusals, and the reason of a 6.
#![tactic(auto)]

mod held;
mod limits;
mod reason;
mod size;
mod table;

pub use held::{Knot, gap};
pub use limits::{
    COEFFICIENTS_MAX, GAP_MAX, GRADE_MAX, KNOTS_MAX, MULTIPLIER_MAX, POSITION_MAX, READINGS_MAX,
    SIZE_MAX,
};
pub use reason::{Fault, Spot};
pub use size::list_reason;
pub use table::{Refusal, number_of};
