// Value, trend and total of the knots of a reel.
ghost use Rattle.std.specs.Prelude.{◌≡◌, ◌*◌, ◌-◌, ◌≤◌, ◌<◌, ℕ, ℤ, length};
ghost use Rattle.rounding.specs.Piece.{Piece, piece, position_unit};
ghost use Rattle.rounding.specs.Size.{Admitted};
ghost use Rattle.knot.specs.Machine.{scans};
ghost use Rattle.scans.specs.Pieces.{mark, piece_of};
ghost use Rattle.scans.specs.Queries.{total_over, trend_at, value_at};
ghost use Rattle.chain.specs.Machine.{Chained, InPiece, Reached};

use crate::place::{piece_at, piece_of_trend};
use knot::{Knot, gap};
use rounding::POSITION_UNIT;

// What f gives of piece k at query position x: its value or its trend. Both are passed as closures: a function of
// another crate's inner module, passed by its name, gets no contract.
fn of_piece<F: Fn(u64, &[i32], &[i32], u64) -> i64>(knots: &[Knot], k: usize, x: u32, f: F) -> i64
    requires chained { Chained knots.now }
    requires lies { InPiece (scans knots.now) k x }
    requires callable { (h : _) (p q : _) (r : _)
        → (Admitted (piece h p.now q.now)) × (r ≤ position_unit * h) → F.pre f h p q r }
    ensures { (of : Piece → ℕ → ℤ)
        → ((h : _) (p q : _) (r n : _) → F.post f h p q r n → n ≡ of (piece h p.now q.now) r)
        → result ≡ of (piece_of (scans knots.now) k) (x - mark (scans knots.now) k) }
{
    let left = &knots[k];
    let right = &knots[k + 1];
    let r = u64::from(x) - POSITION_UNIT * u64::from(left.position);
    f(
        gap(left.position, right.position),
        left.list(),
        right.list(),
        r,
    )
}

// The value at query position x, which lies from the first knot to the last.
pub fn value(knots: &[Knot], x: u32) -> i64
    requires { Reached knots.now x }
    ensures { result ≡ value_at (scans knots.now) x }
{
    let k = piece_at(knots, x);
    of_piece(knots, k, x, |h, p, q, r| piece::value(h, p, q, r))
}

// The trend at query position x, which lies from the first knot to the last.
pub fn trend(knots: &[Knot], x: u32) -> i64
    requires { Reached knots.now x }
    ensures { result ≡ trend_at (scans knots.now) x }
{
    let k = piece_of_trend(knots, x);
    of_piece(knots, k, x, |h, p, q, r| piece::trend(h, p, q, r))
}

// The total of pieces i to j − 1.
pub fn total(knots: &[Knot], i: usize, j: usize) -> i64
    requires { (Chained knots.now) × (i ≤ j) × (j < length knots.now) }
    ensures { result ≡ total_over (scans knots.now) i j }
{
    let mut sum = 0;
    for pair in knots[i..=j].windows(2) {
        let left = &pair[0];
        let right = &pair[1];
        sum += water::total(
            gap(left.position, right.position),
            left.list(),
            right.list(),
        );
    }
    sum
}
