// K and Y3, the parts of a trend that no half-sum gives.
ghost use Rattle.std.specs.Prelude.{◌≡◌, ◌+◌, ◌*◌, ◌≤◌};
ghost use Rattle.integer.specs.Within.{Within};
ghost use Rattle.hermite.specs.HalfSum.{g};
ghost use Rattle.hermite.specs.Polynomial.{coefficient};
ghost use Rattle.hermite.specs.Slope.{sum_k};
ghost use Rattle.knot_weights.specs.Machine.{Lists, Weights};
ghost use Rattle.rounding.specs.Limits.{grade_max, size_max};
ghost use Rattle.rounding.specs.Trend.{scaled_k};

use super::place::Place;
use half_sum::{VALUE_UNIT, rounds};
use scaling::scaled_times;

// One of the two sums of K: n+1 times g_m of w against n+1. One round more than a half-sum has leaves g_0 to g_7
// against n+1 in the array that the weights come in.
pub fn sum_k(m: usize, n: usize, w: &mut [i64; 8]) -> i64
    requires { (m ≤ grade_max) × (n ≤ grade_max) × (Weights size_max w.old) }
    ensures { (result ≡ sum_k m n (coefficient w.old))
        × (Lists w.new (g (n + 1) (coefficient w.old))) }
{
    let next = n + 1;
    rounds(next + 1, w);
    next as i64 * w[m]
}

// Y3: 65,536 × K, scaled by r/d m times, then by (d−r)/d n times. Each sum of K is at most 91,520 times the
// greatest weight.
pub fn scaled_k(m: usize, n: usize, place: Place, k: i64) -> i64
    requires { Within (2 * (91520 * size_max)) k }
    ensures { result ≡ scaled_k m n place.s.a place.s.d k }
{
    let u = scaled_times(m, VALUE_UNIT * k, place.s);
    scaled_times(n, u, place.complement)
}
