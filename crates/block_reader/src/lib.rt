// Reading blocks.
#![tactic(auto)]

mod contents;
mod reader;

pub use contents::Contents;
pub use reader::read;
