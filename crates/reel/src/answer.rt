// What a call hands back.
use crate::held::Reel;
use knot::Refusal;

// What a call answers. No `Result`: document 01 names an enum, and the theorem on sequences (`Called`, `Right`) speaks
// of it.
#[derive(Clone, Copy)]
pub enum Answer {
    Accepted,
    Number(i64),
    Refused(Refusal),
}

// The reel that a call leaves, and its answer. The reel stands first: that saves a copy of it.
#[derive(Clone, Copy)]
pub struct Handed {
    pub reel: Reel,
    pub answer: Answer,
}
