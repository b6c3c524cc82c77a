// What a line of the report tells of a piece.
ghost use Rattle.std.specs.Prelude.{◌≡◌, suc, ◌<◌, length};
ghost use Rattle.scans.specs.Scan.{at as scan_at};
ghost use Rattle.reel.specs.Machine.{scans};
ghost use Rattle.report_lines.specs.Machine.{Asks};

use reel::{Answer, Reel};
use rounding::POSITION_UNIT;

#[derive(Clone, Copy)]
pub struct Row {
    pub index: u32,
    pub from: u32,
    pub to: u32,
    pub value: Answer,
    pub trend: Answer,
    pub total: Answer,
}

// The position of knot k, which is there.
fn position(reel: Reel, k: u32) -> u32
    requires { k < length (scans reel) }
    ensures { result ≡ (scan_at (scans reel) k).position }
{
    u32::from(reel.position(k).unwrap())
}

// Piece k, with value and trend at its left knot.
pub(crate) fn ask(reel: Reel, k: u32) -> Row
    requires { suc k < length (scans reel) }
    ensures { Asks result (scans reel) k }
{
    let from = position(reel, k);
    let to = position(reel, k + 1);
    let x = POSITION_UNIT as u32 * from;
    Row {
        index: k,
        from,
        to,
        value: reel.value(x).answer,
        trend: reel.trend(x).answer,
        total: reel.total(k, k + 1).answer,
    }
}
