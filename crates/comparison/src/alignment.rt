// The positions and grades of two lists, knot by knot.
ghost use Rattle.std.specs.Prelude.{◌≡◌};
ghost use Rattle.scans.specs.Combination;
ghost use Rattle.scans.specs.Combination.{all_aligned};
ghost use Rattle.knot.specs.Machine.{scan, scans};

use crate::pairs::pairwise;
use knot::Knot;

// Whether two knots agree in position and grade.
pub(crate) fn aligned(a: &Knot, b: &Knot) -> bool
    ensures { result ≡ Combination.aligned (scan a.now) (scan b.now) }
{
    a.position == b.position && a.grade == b.grade
}

// Whether two lists agree in the number of their knots, in positions and grades.
pub fn all_aligned(knots: &[Knot], others: &[Knot]) -> bool
    ensures { result ≡ all_aligned (scans knots.now) (scans others.now) }
{
    pairwise(knots, others, aligned)
}
