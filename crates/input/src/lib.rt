// Reading a stream into a lent buffer.
#![tactic(auto)]

mod full;

pub use full::{filled, large_buffer, read_full};
