// The reason of a 6: a question beside each call of a reel that can answer 6, with that call's arguments, asked of the
// reel that the call is made on; after a 6 it is the one handed back. The reel that is asked stays as it was. A view's
// 6 is that of a read of its block. After any other outcome there is none.
ghost use Rattle.std.specs.Prelude.{◌≡◌};
ghost use Rattle.knot.specs.Machine.{reason_in, spot_in};
ghost use Rattle.calls.specs.Calls;
ghost use Rattle.calls.specs.Reason.{reason_for, sum_reason};
ghost use Rattle.reel.specs.Machine.{scans};

use crate::held::Reel;
use first_cause::{append_cause, correct_in_list};
use knot::{Fault, Spot};

// The reason of what is found.
fn reason<T: Copy>(found: Result<T, Fault>) -> Option<Spot>
    ensures { spot_in result ≡ reason_in found }
{
    found.err()?.reason()
}

impl Reel {
    // Why an append answers 6: the first product that exceeds the limit, of the held knot and then of the new one.
    pub fn append_reason(self, position: u32, coefficients: &[i32]) -> Option<Spot>
        ensures { spot_in result ≡ reason_for (Calls.append position coefficients.now) (scans self) }
    {
        reason(append_cause(self.list(), position, coefficients))
    }

    // Why a correct answers 6: the first product that exceeds the limit, with the left gap and then with the right.
    pub fn correct_reason(self, k: u32, coefficients: &[i32]) -> Option<Spot>
        ensures { spot_in result ≡ reason_for (Calls.correct k coefficients.now) (scans self) }
    {
        reason(correct_in_list(self.list(), k, coefficients))
    }

    // Why a read answers 6: the first product that exceeds the limit, of each knot of the block in turn as if appended.
    pub fn read_reason(self, bytes: &[u8]) -> Option<Spot>
        ensures { spot_in result ≡ reason_for (Calls.read bytes.now) (scans self) }
    {
        reason(block_reader::read(bytes))
    }

    // Why a sum answers 6: the first product that exceeds the limit, of each knot of the sum in turn as if appended.
    pub fn combine_reason(self, alpha: i32, beta: i32, other: Reel) -> Option<Spot>
        ensures { spot_in result ≡ sum_reason alpha beta (scans self) (scans other) }
    {
        reason(combination::combine(alpha, self.list(), beta, other.list()))
    }
}
