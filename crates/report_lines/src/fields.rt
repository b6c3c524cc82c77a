// The text of the report's numbers, each with what stands behind it, and of a line of them.
ghost use Rattle.std.specs.Prelude.{[], ◌∷◌, ◌++◌, ◌+◌, ◌≤◌, length};
ghost use Rattle.text.specs.Text.{Put, decimal};
ghost use Rattle.reel.specs.Machine.{reply_of};
ghost use Rattle.report_lines.specs.Report.{shown};
ghost use Rattle.report_lines.specs.Machine.{line_max, row_text};

use crate::row::Row;
use reel::Answer;
use text::{put_decimal, put_signed};

// A number, and a byte behind it. The cast is `as`, since the proof is stated so.
pub(crate) fn put_number(out: &mut [u8], at: usize, n: u32, behind: u8) -> usize
    requires { at + 21 ≤ length out.old }
    ensures put { Put out.old at (decimal n ++ behind ∷ []) result out.new }
    ensures upper_bound { result ≤ at + 21 }
{
    let end = put_decimal(out, at, n as u64);
    out[end] = behind;
    end + 1
}

// The number that an answer is.
fn put_shown(out: &mut [u8], at: usize, answer: Answer) -> usize
    requires { at + 20 ≤ length out.old }
    ensures put { Put out.old at (shown (reply_of answer)) result out.new }
    ensures upper_bound { result ≤ at + 20 }
{
    match answer {
        Answer::Number(z) => put_signed(out, at, z),
        Answer::Accepted | Answer::Refused(_) => at,
    }
}

// That, and a byte behind it.
pub(crate) fn put_answer(out: &mut [u8], at: usize, answer: Answer, behind: u8) -> usize
    requires { at + 21 ≤ length out.old }
    ensures put { Put out.old at (shown (reply_of answer) ++ behind ∷ []) result out.new }
    ensures upper_bound { result ≤ at + 21 }
{
    let end = put_shown(out, at, answer);
    out[end] = behind;
    end + 1
}

// The line of a piece.
pub(crate) fn put_row(out: &mut [u8], at: usize, row: Row) -> usize
    requires { at + line_max ≤ length out.old }
    ensures put { Put out.old at (row_text row) result out.new }
    ensures upper_bound { result ≤ at + line_max }
{
    let indexed = put_number(out, at, row.index, b' ');
    let started = put_number(out, indexed, row.from, b' ');
    let ended = put_number(out, started, row.to, b' ');
    let valued = put_answer(out, ended, row.value, b' ');
    let trended = put_answer(out, valued, row.trend, b' ');
    put_answer(out, trended, row.total, b'\n')
}
