// The first cause that refuses a query: 7 to 9 of the refusal table.
ghost use Rattle.std.specs.Prelude.{◌≡◌, ◌-◌, length};
ghost use Rattle.scans.specs.Pieces.{mark};
ghost use Rattle.scans.specs.RefusalTable;
ghost use Rattle.scans.specs.Order.{query_causes, range_causes};
ghost use Rattle.knot.specs.Machine.{refusal, scans};

use knot::{Knot, Refusal};
use rounding::POSITION_UNIT;

// Every query asks for two knots: 8.
pub const KNOTS_MIN: usize = 2;

// Of a query position, between the first and the last of these knots: 8, then 7.
pub fn query_cause(knots: &[Knot], x: u32) -> Result<(), Refusal>
    ensures { refusal result ≡ RefusalTable.first (query_causes (length (scans knots.now))
        (mark (scans knots.now) 0) (mark (scans knots.now) (length (scans knots.now) - 1)) x) }
{
    if knots.len() < KNOTS_MIN {
        return Err(Refusal::Few);
    }
    let first = &knots[0];
    let last = &knots[knots.len() - 1];
    if u64::from(x) < POSITION_UNIT * u64::from(first.position) {
        return Err(Refusal::Outside);
    }
    if POSITION_UNIT * u64::from(last.position) < u64::from(x) {
        return Err(Refusal::Outside);
    }
    Ok(())
}

// Of a range of pieces: 8, then 9.
pub fn range_cause(count: usize, i: u32, j: u32) -> Result<(), Refusal>
    ensures { refusal result ≡ RefusalTable.first (range_causes count i j) }
{
    if count < KNOTS_MIN {
        return Err(Refusal::Few);
    }
    if j < i {
        return Err(Refusal::Index);
    }
    if count <= j as usize {
        return Err(Refusal::Index);
    }
    Ok(())
}
