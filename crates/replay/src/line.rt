// One line of a script: the call that its first field names, and its answer.

use crate::line_error::LineError;
use crate::pair_calls::{combine, same};
use crate::reel_calls::{append, clear, correct, read, total, trend, value, write};
use crate::views::{view, view_at};
use fields::{Fields, LINE_MAX};
use reel::Reel;
use std::io;
use std::io::Write;

// The reel that the call of a line leaves, which is answered. A line that is too long is none, whatever it says.
fn called<W: Write>(out: &mut W, reel: Reel, line: &[u8]) -> Result<Reel, LineError> {
    if LINE_MAX < line.len() {
        return Err(LineError::Unreadable);
    }
    let mut fields = Fields::of(line)?;
    match fields.field()? {
        "clear" => clear(out, reel, fields),
        "append" => append(out, reel, fields),
        "correct" => correct(out, reel, fields),
        "read" => read(out, reel, fields),
        "write" => write(out, reel, fields),
        "value" => value(out, reel, fields),
        "trend" => trend(out, reel, fields),
        "total" => total(out, reel, fields),
        "same" => {
            same(out, fields)?;
            Ok(reel)
        }
        "combine" => {
            combine(out, fields)?;
            Ok(reel)
        }
        "view" => {
            view(out, fields)?;
            Ok(reel)
        }
        "viewat" => {
            view_at(out, fields)?;
            Ok(reel)
        }
        _ => Err(LineError::Unreadable),
    }
}

// The answer to a line. Those that are empty or begin with `#`, `=` or `~` are passed over. Behind one that is no call
// the reel goes on as it was.
pub fn answered<W: Write>(out: &mut W, reel: Reel, line: &[u8]) -> io::Result<Reel> {
    if let [] | [b'#' | b'=' | b'~', ..] = line {
        return Ok(reel);
    }
    let after = match called(out, reel, line) {
        Ok(after) => after,
        Err(LineError::Unreadable) => {
            out.write_all(b"unreadable")?;
            reel
        }
        Err(LineError::Io(error)) => return Err(error),
    };
    out.write_all(b"\n")?;
    Ok(after)
}
