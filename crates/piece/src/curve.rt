// A piece at distance r from its left knot, in 1/256 step: value, in 1/65,536 count, and trend, in 1/65,536 count
// per step. The setup of both ends stands in each, since an array that is handed back is copied. Gap and knots are
// arguments of their own, since docs/READING.md has the contracts of `value`, `trend` and `water::total` in this form.
ghost use Rattle.std.specs.Prelude.{◌≡◌, ◌*◌, ◌≤◌};
ghost use Rattle.rounding.specs.Piece.{piece, position_unit};
ghost use Rattle.rounding.specs.Size.{Admitted};
ghost use Rattle.rounding.specs.Trend;
ghost use Rattle.rounding.specs.Value;

use super::place::Place;
use super::slope::{scaled_k, sum_k};
use half_sum::{lower_step_3, lower_steps_1_and_2, steps_1_and_2};
use knot_weights::{right_weights, weights};
use rounding::POSITION_UNIT;
use scaling::{Divisor, Fraction, scaled, scaled_times};

// The value: a half-sum from each end. Each is a chain of scalings, and neither waits for the other: with step 3 of
// both after step 2 of both they stand close together, and a machine works on both at once.
pub fn value(h: u64, left: &[i32], right: &[i32], r: u64) -> i64
    requires { (Admitted (piece h left.now right.now)) × (r ≤ position_unit * h) }
    ensures { result ≡ Value.value (piece h left.now right.now) r }
{
    let m = left.len() - 1;
    let n = right.len() - 1;
    let divisor = Divisor::of(h);
    let Place { s, complement } = Place::of(r, divisor);
    let mut p = [0i64; 8];
    weights(h, left, &mut p);
    let mut w = [0i64; 8];
    right_weights(h, right, &mut w);
    let u = steps_1_and_2(m, n, s, &mut p);
    let v = steps_1_and_2(n, m, complement, &mut w);
    let from_left = scaled_times(n + 1, u, complement);
    let from_right = scaled_times(m + 1, v, s);
    from_left + from_right
}

// The trend: Y1 − Y2 + Y3, divided by h, which is scaled by 256/D. Step 3 of Y1 and Y2 comes late, as in a value.
// K comes when w' has been made of both ends' weights, since it uses their arrays up.
pub fn trend(h: u64, left: &[i32], right: &[i32], r: u64) -> i64
    requires { (Admitted (piece h left.now right.now)) × (r ≤ position_unit * h) }
    ensures { result ≡ Trend.trend (piece h left.now right.now) r }
{
    let m = left.len() - 1;
    let n = right.len() - 1;
    let divisor = Divisor::of(h);
    let place = Place::of(r, divisor);
    let Place { s, complement } = place;
    let mut p = [0i64; 8];
    weights(h, left, &mut p);
    let mut w = [0i64; 8];
    right_weights(h, right, &mut w);
    let u = lower_steps_1_and_2(m, n, s, &p);
    let v = lower_steps_1_and_2(n, m, complement, &w);
    let k = sum_k(n, m, &mut w) - sum_k(m, n, &mut p);
    let y1 = lower_step_3(m, n, complement, u);
    let y2 = lower_step_3(n, m, s, v);
    let y3 = scaled_k(m, n, place, k);
    scaled(y1 - y2 + y3, Fraction::of(POSITION_UNIT, divisor))
}
