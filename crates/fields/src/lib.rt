// What stands on a line of a script: fields, numbers in decimal and bytes in hexadecimal.
#![tactic(auto)]

mod field;
mod hex;
mod number;

pub use field::{Fields, LINE_MAX, Unreadable, room};
pub use number::UNSIGNED_MAX;
