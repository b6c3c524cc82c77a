// The knots of two lists, one by one: position, grade and coefficients.
ghost use Rattle.std.specs.Prelude.{◌≡◌};
ghost use Rattle.knot.specs.Machine.{scan, scans};
ghost use Rattle.calls.specs.Same;

use crate::alignment::aligned;
use crate::pairs::pairwise;
use knot::Knot;

// Whether two knots agree in position, grade and all coefficients. The places past the grade are free, and are not
// looked at.
fn agree(a: &Knot, b: &Knot) -> bool
    ensures { result ≡ Same.agree (scan a.now) (scan b.now) }
{
    aligned(a, b) && a.list() == b.list()
}

// Whether two lists agree in the number of their knots, in positions, grades and all coefficients.
#[tactic(auto, unfolding(calls::specs::Same::same))]
pub fn same(knots: &[Knot], others: &[Knot]) -> bool
    ensures { result ≡ Same.same (scans knots.now) (scans others.now) }
{
    pairwise(knots, others, agree)
}
