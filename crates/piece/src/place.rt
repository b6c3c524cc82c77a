// A place in a piece, r from its left knot, by the fractions r/D and (D−r)/D: its distances from both ends.
ghost use Rattle.std.specs.Prelude.{◌≡◌, ◌≤◌};
ghost use Rattle.scaling.specs.Machine.{Complements};

use scaling::{Divisor, Fraction};

#[derive(Clone, Copy)]
pub struct Place {
    pub s: Fraction,
    pub complement: Fraction,
    ghost complements: { Complements s complement },
}

impl Place {
    pub fn of(r: u64, divisor: Divisor) -> Self
        requires { r ≤ divisor.d }
        ensures { (result.s.a ≡ r) × (result.s.d ≡ divisor.d) }
    {
        Self {
            s: Fraction::of(r, divisor),
            complement: Fraction::of(divisor.d - r, divisor),
        }
    }
}
