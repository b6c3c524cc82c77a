// The lines of the report, and the report of a block.
ghost use Rattle.std.proofs.Math.Option.{none};
ghost use Rattle.std.specs.Prelude.{◌+◌, ◌≤◌, length};
ghost use Rattle.text.specs.Text.{Put};
ghost use Rattle.knot.specs.Machine.{number};
ghost use Rattle.reel.specs.Machine.{reply_of, scans};
ghost use Rattle.report_lines.specs.Report.{pieces_in, piece_lines, refused_line, reported, report_of, reel_text};
ghost use Rattle.report_lines.specs.Machine.{Reports, lines_max, room_max};

use crate::fields::{put_answer, put_number, put_row};
use crate::opened::open_block;
use crate::room::Report;
use crate::row::ask;
use knot::Refusal;
use reel::{Answer, Reel};
use text::put_bytes;

// A line for each piece, of which there are at most 128.
fn put_pieces(reel: Reel, out: &mut [u8]) -> usize
    requires { lines_max ≤ length out.old }
    ensures put { Put out.old 0 (piece_lines (scans reel) (pieces_in (scans reel))) result out.new }
    ensures upper_bound { result ≤ lines_max }
{
    let mut at = 0;
    for k in 0..reel.count().saturating_sub(1) {
        at = put_row(out, at, ask(reel, k));
    }
    at
}

// The line of the reel.
fn put_reel_line(out: &mut [u8], at: usize, pieces: u32, total: Answer) -> usize
    requires { at + 47 ≤ length out.old }
    ensures put { Put out.old at (reel_text pieces (reply_of total)) result out.new }
    ensures upper_bound { result ≤ at + 47 }
{
    let named = put_bytes(out, at, b"reel ");
    let counted = put_number(out, named, pieces, b' ');
    put_answer(out, counted, total, b'\n')
}

// All lines of a reel of two knots or more.
fn put_reel(reel: Reel, out: &mut [u8]) -> usize
    requires { (2 ≤ length (scans reel)) × (room_max ≤ length out.old) }
    ensures put { Put out.old 0 (reported none (scans reel)) result out.new }
    ensures upper_bound { result ≤ room_max }
{
    let at = put_pieces(reel, out);
    let pieces = reel.count() - 1;
    put_reel_line(out, at, pieces, reel.total(0, pieces).answer)
}

// The one line of a refusal.
fn put_refused(out: &mut [u8], cause: Refusal) -> usize
    requires { 29 ≤ length out.old }
    ensures put { Put out.old 0 (refused_line (number cause)) result out.new }
    ensures upper_bound { result ≤ 29 }
{
    let named = put_bytes(out, 0, b"refused ");
    put_number(out, named, cause.number(), b'\n')
}

// The report, from the start of a lent room on.
fn put_report(bytes: &[u8], out: &mut [u8]) -> usize
    requires { room_max ≤ length out.old }
    ensures put { Put out.old 0 (report_of bytes.now) result out.new }
    ensures upper_bound { result ≤ room_max }
{
    match open_block(bytes) {
        Err(cause) => put_refused(out, cause),
        Ok(reel) => put_reel(reel, out),
    }
}

// The report of these bytes, which are taken as a block.
pub fn report(bytes: &[u8]) -> Report
    ensures { Reports result bytes.now }
{
    let mut text = Report::room();
    let length = put_report(bytes, &mut text);
    Report { text, length }
}
