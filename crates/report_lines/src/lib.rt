// The reel report: from a block's bytes to the report's bytes.
#![tactic(auto)]

mod fields;
mod lines;
mod opened;
mod room;
mod row;

pub use lines::report;
pub use room::Report;
