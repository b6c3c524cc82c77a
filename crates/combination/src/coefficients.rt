// αA + βB, coefficient by coefficient, formed on 64 bits.
ghost use Rattle.std.specs.Prelude.{map, ◌≡◌, ◌+ℤ◌, ◌*ℤ◌};
ghost use Rattle.integer.specs.Within.{Within};
ghost use Rattle.hermite.specs.Polynomial.{◌⊕◌, ◌⊙◌};
ghost use Rattle.rounding.specs.Limits.{multiplier_max};
ghost use Rattle.combination.specs.Machine.{limited};

use knot::{COEFFICIENTS_MAX, SIZE_MAX};
use magnitude::magnitude;
use std::array;

// One coefficient as a knot holds it. One above 2^28 in size breaks the size rule at every gap; it is tested before it
// is narrowed, and 2^28 + 1 stands for it, which breaks the rule at every gap too: so the same order is named.
#[tactic(auto, using(crate::proofs::Formed::coefficient_laws))]
fn coefficient(alpha: i32, a: i32, beta: i32, b: i32) -> i32
    requires { (Within multiplier_max alpha) × (Within multiplier_max beta) }
    ensures { result ≡ limited (alpha *ℤ a +ℤ beta *ℤ b) }
{
    let c = i64::from(alpha) * i64::from(a) + i64::from(beta) * i64::from(b);
    if SIZE_MAX < magnitude(c) {
        return (SIZE_MAX + 1) as i32;
    }
    c as i32
}

// All eight places: those past a knot's grade are free, and stay so.
pub fn combined_list(
    alpha: i32,
    a: &[i32; COEFFICIENTS_MAX],
    beta: i32,
    b: &[i32; COEFFICIENTS_MAX],
) -> [i32; COEFFICIENTS_MAX]
    requires { (Within multiplier_max alpha) × (Within multiplier_max beta) }
    ensures { result ≡ map limited (alpha ⊙ a.now ⊕ beta ⊙ b.now) }
{
    array::from_fn(|j| coefficient(alpha, a[j], beta, b[j]))
}
