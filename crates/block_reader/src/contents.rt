// What a block holds.
ghost use Rattle.std.specs.Prelude.{◌≡◌, ◌≤◌, length};
ghost use Rattle.rounding.specs.Limits.{knots_max};

use knot::{KNOTS_MAX, Knot};

// The list of a block: the first `count` knots. The places past them are free, since the engine
// allocates nothing.
#[derive(Clone, Copy)]
pub struct Contents {
    pub knots: [Knot; KNOTS_MAX],
    pub count: usize,
    pub ghost room: { length knots ≡ knots_max },
    pub ghost few: { count ≤ knots_max },
}
