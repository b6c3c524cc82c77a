// The total of a piece, in 1/720,720 of a count × step. A cast in a product is `as`, since its proof is stated so.
ghost use Rattle.std.specs.Prelude.{◌≡◌, ◌≤◌, ◌<◌, pos, ◌*ℤ◌, get_or, length};
ghost use Rattle.integer.specs.Sum;
ghost use Rattle.hermite.specs.Polynomial.{coefficient};
ghost use Rattle.knot_weights.specs.Machine.{Weights};
ghost use Rattle.rounding.specs.Limits.{grade_max, size_max};
ghost use Rattle.rounding.specs.Piece.{piece};
ghost use Rattle.rounding.specs.Size.{Admitted};
ghost use Rattle.rounding.specs.Water;
ghost use Rattle.water.specs.Machine.{Entries};

use crate::table::integral_weights;
use knot_weights::{right_weights, weights};

// The sum of c_j × w_j over j from 0 to m. By index from 1 on, and not by `zip`, since the edits
// `second_weight_left_out` and `last_weight_for_each` spoil the terms after the first.
fn weighted(m: usize, c: &[u32], w: &[i64]) -> i64
    requires { (m ≤ grade_max) × (m < length c.now) × (Entries c.now) × (Weights size_max w.now) }
    ensures { result ≡ Sum.sum m (λ j. pos (get_or c.now j 0) *ℤ coefficient w.now j) }
{
    let mut sum = c[0] as i64 * w[0];
    for j in 1..m + 1 {
        sum += c[j] as i64 * w[j];
    }
    sum
}

// The total: each end's weights by their integral weights, and h times the sum. The arguments of a piece stand apart,
// as in `piece::value`.
pub fn total(h: u64, left: &[i32], right: &[i32]) -> i64
    requires { Admitted (piece h left.now right.now) }
    ensures { result ≡ Water.total (piece h left.now right.now) }
{
    let m = left.len() - 1;
    let n = right.len() - 1;
    let mut p = [0i64; 8];
    weights(h, left, &mut p);
    let mut w = [0i64; 8];
    right_weights(h, right, &mut w);
    let table = integral_weights();
    let row = 64 * m + 8 * n;
    let exchanged = 64 * n + 8 * m;
    h as i64 * (weighted(m, &table[row..], &p) + weighted(n, &table[exchanged..], &w))
}
