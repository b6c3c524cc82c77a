// Document 01, "Half-sum of grade m against n", with fraction a/d. Bounds of grades and weights stay clauses, since
// docs/READING.md has these contracts.
ghost use Rattle.std.specs.Prelude.{◌≡◌, ◌*◌, ◌-◌, ◌^◌, ◌≤◌};
ghost use Rattle.hermite.specs.HalfSum.{g};
ghost use Rattle.hermite.specs.Polynomial.{coefficient};
ghost use Rattle.rounding.specs.HalfSum;
ghost use Rattle.rounding.specs.Limits.{grade_max, size_max};
ghost use Rattle.half_sum.specs.Machine.{steps_1_and_2, lower_steps_1_and_2, lower_step_3};
ghost use Rattle.integer.specs.Within.{Within};
ghost use Rattle.knot_weights.specs.Machine.{Lists, Weights};

use super::running::rounds;
use knot_weights::primed;
use scaling::{Fraction, scaled, scaled_times};

// The parts of a count that values are in.
pub const VALUE_UNIT: i64 = 65_536;

// Half-sums of grade −1 are 0.
const HALF_SUM_OF_GRADE_MINUS_ONE: i64 = 0;

// Step 2: u from m down to 0, over the sums g_i, each at most 6,435 times the greatest weight. They are 8 for
// every m, which stands beside them: a slice of them would be another argument of `coefficient`.
fn descended(m: usize, s: Fraction, g: &[i64]) -> i64
    requires { (m ≤ grade_max) × (Weights (6435 * (7 * size_max)) g.now) }
    ensures { result ≡ HalfSum.descended (coefficient g.now) s.a s.d m 0 }
{
    let mut u = VALUE_UNIT * g[m];
    for i in (0..m).rev() {
        u = scaled(u, s) + VALUE_UNIT * g[i];
    }
    u
}

// Steps 1 and 2 of the half-sum of m against n: u. The array that the weights come in is the only one: n+1 rounds leave
// g_0 to g_7 in it, and step 2 reads them there. Step 3 is `scaled_times`, n+1 times by (d−a)/d.
pub fn steps_1_and_2(m: usize, n: usize, s: Fraction, w: &mut [i64; 8]) -> i64
    requires { (m ≤ grade_max) × (n ≤ grade_max) × (Weights (7 * size_max) w.old) }
    ensures { (result ≡ steps_1_and_2 m n s.a s.d (coefficient w.old))
        × (Lists w.new (g n (coefficient w.old))) }
{
    rounds(n + 1, w);
    descended(m, s, w)
}

// The same for the half-sum of m−1 against n on w', in the array of w'.
pub fn lower_steps_1_and_2(m: usize, n: usize, s: Fraction, w: &[i64]) -> i64
    requires { (m ≤ grade_max) × (n ≤ grade_max) × (Weights size_max w.now) }
    ensures { result ≡ lower_steps_1_and_2 m n s.a s.d (coefficient w.now) }
{
    if m == 0 {
        return HALF_SUM_OF_GRADE_MINUS_ONE;
    }
    let mut v = [0i64; 8];
    primed(w, &mut v);
    steps_1_and_2(m - 1, n, s, &mut v)
}

// Step 3 of that half-sum; of grade −1 there is nothing to scale.
pub fn lower_step_3(m: usize, n: usize, complement: Fraction, u: i64) -> i64
    requires { (n ≤ grade_max) × (Within (2 ^ 63 - 1) u) }
    ensures { result ≡ lower_step_3 m n complement.a complement.d u }
{
    if m == 0 {
        return HALF_SUM_OF_GRADE_MINUS_ONE;
    }
    scaled_times(n + 1, u, complement)
}
