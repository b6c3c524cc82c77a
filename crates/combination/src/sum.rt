// The sum of two lists of knots, knot by knot, and the first cause that refuses it. The multipliers stay two arguments:
// `combine` takes any, and a struct of two that fit would be taken apart at each coefficient.
ghost use Rattle.std.specs.Prelude.{[], ◌∷◌, ◌≡◌, length};
ghost use Rattle.integer.specs.Within.{Within};
ghost use Rattle.rounding.specs.Limits.{multiplier_max};
ghost use Rattle.scans.specs.Standing.{Standing};
ghost use Rattle.scans.specs.RefusalTable.{bad_multiplier, first};
ghost use Rattle.scans.specs.Combination.{combined_scan};
ghost use Rattle.knot.specs.Machine.{refusal, scan, scans};
ghost use Rattle.combination.specs.Machine.{Summable, SumsKnots, SumsReels, limited_scan};

use crate::coefficients::combined_list;
use comparison::all_aligned;
use following::follow_reason;
use knot::{Fault, KNOTS_MAX, Knot, MULTIPLIER_MAX, Refusal};
use magnitude::magnitude;

// The sum of two knots at one position and of one grade.
fn combined_knot(alpha: i32, a: &Knot, beta: i32, b: &Knot) -> Knot
    requires within { (Within multiplier_max alpha) × (Within multiplier_max beta) }
    requires alike { a.now.grade ≡ b.now.grade }
    ensures { scan result ≡ limited_scan (combined_scan alpha beta (scan a.now) (scan b.now)) }
{
    Knot {
        position: a.position,
        grade: a.grade,
        coefficients: combined_list(alpha, &a.coefficients, beta, &b.coefficients),
    }
}

// The knots of the sum, and free places after them: 6, as append tests it, of each after those before it.
fn summed(
    alpha: i32,
    knots: &[Knot],
    beta: i32,
    others: &[Knot],
) -> Result<[Knot; KNOTS_MAX], Fault>
    requires { Summable alpha beta knots.now others.now }
    ensures { SumsKnots result (length knots.now) alpha beta (scans knots.now) (scans others.now) }
{
    let mut sums = [Knot::FREE; KNOTS_MAX];
    for (k, (mine, its)) in knots.iter().zip(others).enumerate() {
        let next = combined_knot(alpha, mine, beta, its);
        follow_reason(k as u32, sums[..k].last(), &next)?;
        sums[k] = next;
    }
    Ok(sums)
}

// Of the multipliers: 14.
fn multiplier_cause(alpha: i32, beta: i32) -> Result<(), Refusal>
    ensures { refusal result ≡ first (bad_multiplier alpha ∷ bad_multiplier beta ∷ []) }
{
    if MULTIPLIER_MAX < magnitude(i64::from(alpha)) {
        return Err(Refusal::Multiplier);
    }
    if MULTIPLIER_MAX < magnitude(i64::from(beta)) {
        return Err(Refusal::Multiplier);
    }
    Ok(())
}

// The knots with the coefficients αA + βB, as many as there are of A, and free places after them; or the first cause
// that refuses them: 14, 13, 6.
pub fn combine(
    alpha: i32,
    knots: &[Knot],
    beta: i32,
    others: &[Knot],
) -> Result<[Knot; KNOTS_MAX], Fault>
    requires { Standing (scans knots.now) }
    ensures { SumsReels result (length knots.now) alpha beta (scans knots.now) (scans others.now) }
{
    multiplier_cause(alpha, beta)?;
    if !all_aligned(knots, others) {
        return Err(Refusal::Unlike.into());
    }
    summed(alpha, knots, beta, others)
}
