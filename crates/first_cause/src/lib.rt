// The first cause that refuses a call: of append, correct and the queries, all causes in their order, of the knots that
// are held.
#![tactic(auto)]

mod changes;
mod queries;

pub use changes::{append_cause, correct_cause, correct_in_list};
pub use queries::{KNOTS_MIN, query_cause, range_cause};
