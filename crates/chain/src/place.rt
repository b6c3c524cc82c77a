// The piece that a query position is in, and the one that its trend is taken from.
ghost use Rattle.std.specs.Prelude.{◌≡◌};
ghost use Rattle.knot.specs.Machine.{scans};
ghost use Rattle.scans.specs.Pieces.{piece_at, trend_place};
ghost use Rattle.chain.specs.Machine.{Reached};

use knot::Knot;
use rounding::POSITION_UNIT;

// `Chained` and `Reached` stay clauses: a reel has both of the list that it lends, and a struct of list and position
// would be made for one call and taken apart in it.

// The first piece that ends after x, or else the last: so many of the inner knots, which start a piece and end one, lie
// at x or before it.
pub fn piece_at(knots: &[Knot], x: u32) -> usize
    requires { Reached knots.now x }
    ensures { result ≡ piece_at (scans knots.now) x }
{
    let inner = &knots[1..knots.len() - 1];
    inner.partition_point(|knot| POSITION_UNIT * u64::from(knot.position) <= u64::from(x))
}

// The piece of a trend at x: at a lone reading, an inner knot of grade 0, the piece on its left; elsewhere the one that
// document 01 assigns. A knot that starts a piece is not the last.
pub fn piece_of_trend(knots: &[Knot], x: u32) -> usize
    requires { Reached knots.now x }
    ensures { result ≡ (trend_place (scans knots.now) x).k }
{
    let k = piece_at(knots, x);
    let start = &knots[k];
    if 0 < k && start.grade == 0 && POSITION_UNIT * u64::from(start.position) == u64::from(x) {
        return k - 1;
    }
    k
}
