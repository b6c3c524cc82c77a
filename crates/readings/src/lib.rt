// The workshop's view of the readings of one knot of a block.
#![tactic(auto)]

mod finding;
mod view;

pub use view::{Seen, View, look};
