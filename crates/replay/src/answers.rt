// What a call is answered. Where the writer fails, so does the function, and there is no reel any more.
ghost use Rattle.std.specs.Prelude.{◌≡◌, ◌≤◌, length, IfOk};

use crate::line_error::LineError;
use knot::{Refusal, Spot};
use reel::{Answer, Handed, Reel};
use std::io;
use std::io::Write;
use text::put_hex;

// The number of a refusal; of 6 also the knot, the order and the gap that broke the size rule, and of which list: a
// knot has one, until request 8/14.
pub fn refused<W: Write>(out: &mut W, cause: Refusal, reason: Option<Spot>) -> io::Result<()> {
    write!(out, "refused {}", cause.number())?;
    if let Some(spot) = reason {
        write!(out, " {} {} {} whole", spot.knot, spot.order, spot.gap)?;
    }
    Ok(())
}

// What a call answered, with the reason of a 6. A number stands behind a word. The reel that was handed goes on.
pub fn told<W: Write>(
    out: &mut W,
    word: &str,
    handed: Handed,
    reason: Option<Spot>,
) -> Result<Reel, LineError>
    ensures { IfOk result (λ r. r ≡ handed.reel) }
{
    match handed.answer {
        Answer::Accepted => out.write_all(b"accepted")?,
        Answer::Number(z) => write!(out, "{word} {z}")?,
        Answer::Refused(cause) => refused(out, cause, reason)?,
    }
    Ok(handed.reel)
}

// The bytes whose digits are written at a time.
const PIECE: usize = 64;

// Of at most 64 bytes.
fn say_piece<W: Write>(out: &mut W, bytes: &[u8]) -> io::Result<()>
    requires { length bytes.now ≤ 64 }
{
    let mut digits = [0u8; 2 * PIECE];
    let end = put_hex(&mut digits, 0, bytes);
    out.write_all(&digits[..end])
}

// Bytes in hexadecimal. A piece at a time, so that no room for all their digits has to be cleared.
pub(crate) fn say_hex<W: Write>(out: &mut W, bytes: &[u8]) -> io::Result<()> {
    for piece in bytes.chunks(PIECE) {
        say_piece(out, piece)?;
    }
    Ok(())
}
