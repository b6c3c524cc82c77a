// Why a call is refused: a cause of the table, and of 6 which product exceeds 2^28.
ghost use Rattle.std.specs.Prelude.{◌≡◌};
ghost use Rattle.knot.specs.Machine.{fault_number, fault_spot, number, spot_in};
ghost use Rattle.knot.specs.declared.reason.Fault.TheVariants as Faults;

use crate::table::Refusal;

// The knot, the order j and the gap of a product |C_j| × h^j.
#[derive(Clone, Copy)]
pub struct Spot {
    pub knot: u32,
    pub order: u32,
    pub gap: u32,
}

// A cause of the table; or, of products in their sequence, the first that is too large, which is cause 6.
#[derive(Clone, Copy)]
pub enum Fault {
    Cause(Refusal),
    TooLarge(Spot),
}

impl Fault {
    // The cause: 6 where a product is too large.
    pub fn cause(self) -> Refusal
        ensures { number result ≡ fault_number self }
    {
        match self {
            Fault::Cause(cause) => cause,
            Fault::TooLarge(_) => Refusal::Size,
        }
    }

    // Which product is too large; none where the cause is another.
    pub fn reason(self) -> Option<Spot>
        ensures { spot_in result ≡ fault_spot self }
    {
        match self {
            Fault::Cause(_) => None,
            Fault::TooLarge(spot) => Some(spot),
        }
    }
}

impl From<Refusal> for Fault {
    ghost from_gives = { λ cause f. f ≡ Faults.Cause cause };

    fn from(cause: Refusal) -> Fault {
        Fault::Cause(cause)
    }
}

impl From<Spot> for Fault {
    ghost from_gives = { λ spot f. f ≡ Faults.TooLarge spot };

    fn from(spot: Spot) -> Fault {
        Fault::TooLarge(spot)
    }
}
