// Numbers and bytes as text, each put into a lent buffer from a place on; the answer is the place behind it. They are
// no `String` and no `Display`, since the engine allocates nothing and the report's theorem says which bytes stand
// where; and no cursor over the buffer, since `Put` says from which place on each of them puts what.
#![tactic(auto)]

mod bytes;
mod number;

pub use bytes::{put_bytes, put_hex};
pub use number::{put_decimal, put_signed};
