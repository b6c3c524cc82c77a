// Writing blocks.
#![tactic(auto)]

mod writer;

pub use writer::{length, write};
