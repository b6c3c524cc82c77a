// The calls on the reels of two blocks, which leave that of the script alone: `same HEX HEX` and `combine A B HEX HEX`.
ghost use Rattle.std.specs.Prelude.{[], ◌≡◌, IfOk};
ghost use Rattle.calls.specs.Calls;
ghost use Rattle.calls.specs.Calls.{standing_after};
ghost use Rattle.calls.specs.Same;
ghost use Rattle.reel.specs.Machine.{scans};

use crate::answers::{refused, say_hex};
use crate::line_error::LineError;
use crate::reel_calls::LENT_MAX;
use fields::{Fields, Unreadable, room};
use input::filled;
use magnitude::magnitude;
use reel::{Answer, Reel};
use std::io;
use std::io::Write;

// The last two fields, blocks at the front of their rooms.
fn blocks<'r>(
    mut fields: Fields,
    one: &'r mut [u8],
    other: &'r mut [u8],
) -> Result<(&'r [u8], &'r [u8]), Unreadable> {
    let one = fields.bytes(one)?;
    let other = fields.bytes(other)?;
    fields.end()?;
    Ok((one, other))
}

// The reel of a block that read accepts.
fn loaded(block: &[u8]) -> Result<Reel, Unreadable>
    ensures { IfOk result (λ one. scans one ≡ standing_after (Calls.read block.now) []) }
{
    let handed = Reel::empty().read(block);
    match handed.answer {
        Answer::Accepted => Ok(handed.reel),
        Answer::Number(_) | Answer::Refused(_) => Err(Unreadable),
    }
}

// Whether the reels of two blocks are the same.
fn agree(one: &[u8], other: &[u8]) -> Result<bool, Unreadable>
    ensures { IfOk result (λ yes. yes ≡ Same.same (standing_after (Calls.read one.now) [])
        (standing_after (Calls.read other.now) [])) }
{
    let one = loaded(one)?;
    let other = loaded(other)?;
    Ok(one.same(other))
}

// `same HEX HEX`.
pub fn same<W: Write>(out: &mut W, fields: Fields) -> Result<(), LineError> {
    let mut one = room(0);
    let mut other = room(0);
    let (one, other) = blocks(fields, &mut one, &mut other)?;
    if agree(one, other)? {
        out.write_all(b"yes")?;
    } else {
        out.write_all(b"no")?;
    }
    Ok(())
}

// The reel's block in hexadecimal.
fn say_block<W: Write>(out: &mut W, reel: Reel) -> io::Result<()> {
    let mut output: [u8; LENT_MAX] = filled(0);
    let written = reel.write(&mut output);
    if let Answer::Number(size) = written.answer {
        // never more than there is room for; the least of both is for the slice
        let count = LENT_MAX.min(magnitude(size) as usize);
        say_hex(out, &output[..count])?;
    }
    Ok(())
}

// The block of the sum of two reels, or why it is refused.
fn say_sum<W: Write>(out: &mut W, alpha: i32, one: Reel, beta: i32, other: Reel) -> io::Result<()> {
    let sum = one.combine(alpha, beta, other);
    if let Answer::Refused(cause) = sum.answer {
        return refused(out, cause, one.combine_reason(alpha, beta, other));
    }
    out.write_all(b"combined ")?;
    say_block(out, sum.reel)
}

// `combine A B HEX HEX`.
pub fn combine<W: Write>(out: &mut W, mut fields: Fields) -> Result<(), LineError> {
    // before any way out: behind one, the compiler would clear both twice
    let mut one = room(0);
    let mut other = room(0);
    let alpha = fields.signed()?;
    let beta = fields.signed()?;
    let (one, other) = blocks(fields, &mut one, &mut other)?;
    let one = loaded(one)?;
    let other = loaded(other)?;
    Ok(say_sum(out, alpha, one, beta, other)?)
}
