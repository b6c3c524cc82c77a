// Two lists of knots, one by one.
ghost use Rattle.std.specs.Prelude.{◌≡◌, Bool};
ghost use Rattle.integer.specs.Tests;
ghost use Rattle.scans.specs.Scan.{Scan};
ghost use Rattle.knot.specs.Machine.{scan, scans};

use knot::Knot;

// Whether two lists have as many knots, and the two at each place pass a test. Where the test says of two knots what
// `passes` says of their scans, the answer is that of the scans.
pub(crate) fn pairwise<F: Fn(&Knot, &Knot) -> bool>(
    knots: &[Knot],
    others: &[Knot],
    test: F,
) -> bool
    requires { F.IsAlwaysCallable test }
    ensures { (passes : Scan → Scan → Bool)
        → ((a b : _) (r : _) → F.post test a b r → r ≡ passes (scan a.now) (scan b.now))
        → result ≡ Tests.pairwise passes (scans knots.now) (scans others.now) }
{
    knots.len() == others.len() && knots.iter().zip(others).all(|(a, b)| test(a, b))
}
