// The reel of a block, or why there is no report of it.
ghost use Rattle.report_lines.specs.Machine.{Opens};

use block::BLOCK_MAX;
use first_cause::KNOTS_MIN;
use knot::Refusal;
use reel::{Answer, Reel};

// The limit, then what read refuses, then 8.
#[tactic(auto, using(crate::proofs::Opening::opens_over))]
pub(crate) fn open_block(bytes: &[u8]) -> Result<Reel, Refusal>
    ensures { Opens result bytes.now }
{
    if BLOCK_MAX < bytes.len() {
        return Err(Refusal::Form);
    }
    let handed = Reel::empty().read(bytes);
    if let Answer::Refused(cause) = handed.answer {
        return Err(cause);
    }
    let reel = handed.reel;
    if (reel.count() as usize) < KNOTS_MIN {
        return Err(Refusal::Few);
    }
    Ok(reel)
}
