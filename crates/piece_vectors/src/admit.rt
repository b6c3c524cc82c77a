// Whether a case is a piece that a reel can have, which the functions of `piece` and `water` require. Promised is that
// a yes is right; that a no is, the stored output shows: it has no `refused`.
ghost use Rattle.std.specs.Prelude.{true, ◌≡◌, ◌*◌, ◌≤◌};
ghost use Rattle.rounding.specs.Limits.{gap_max};
ghost use Rattle.rounding.specs.Piece.{piece, position_unit};
ghost use Rattle.rounding.specs.Size.{Admitted, Listed, Sized};

use knot::{COEFFICIENTS_MAX, GAP_MAX, list_reason};
use rounding::POSITION_UNIT;

// Whether knot k can have this list beside a gap.
fn sized(k: u32, h: u64, list: &[i32]) -> bool
    requires { h ≤ gap_max }
    ensures { result ≡ true → (Listed list.now) × (Sized h list.now) }
{
    (1..=COEFFICIENTS_MAX).contains(&list.len()) && list_reason(k, h, list).is_ok()
}

pub fn admitted(h: u64, left: &[i32], right: &[i32], r: u64) -> bool
    ensures { result ≡ true → (Admitted (piece h left.now right.now))
        × (r ≤ position_unit * h) }
{
    1 <= h && h <= GAP_MAX && r <= POSITION_UNIT * h && sized(0, h, left) && sized(1, h, right)
}
