// The calls on the reel of the script, each with its fields.
ghost use Rattle.std.specs.Prelude.{◌≡◌, IfOk};
ghost use Rattle.calls.specs.Calls;
ghost use Rattle.calls.specs.Calls.{standing_after};
ghost use Rattle.reel.specs.Machine.{scans};

use crate::answers::{say_hex, told};
use crate::line_error::LineError;
use fields::{Fields, UNSIGNED_MAX, Unreadable, room};
use input::filled;
use reel::Reel;
use std::io::Write;

// `clear`.
pub fn clear<W: Write>(out: &mut W, reel: Reel, fields: Fields) -> Result<Reel, LineError>
    ensures { IfOk result (λ r. scans r ≡ standing_after Calls.clear (scans reel)) }
{
    fields.end()?;
    told(out, "clear", reel.clear(), None)
}

// The greatest number without a sign that a call takes: its arguments have 32 bits.
pub const ARGUMENT_MAX: u32 = UNSIGNED_MAX as u32;

// One more than a knot takes: a longer list is refused whatever it holds, so the rest of it is read and not kept.
const LISTED_MAX: usize = 9;

// The numbers from the next field on, at the front of the room, as many as it takes. No `for`: fields are no list, and
// it runs until none is left.
fn listed<'r>(mut fields: Fields, room: &'r mut [i32]) -> Result<&'r [i32], Unreadable> {
    let mut count = 0;
    while !fields.is_end() {
        let z = fields.signed()?;
        if count < room.len() {
            room[count] = z;
            count += 1;
        }
    }
    Ok(&room[..count])
}

// `append POS C..`.
pub fn append<W: Write>(out: &mut W, reel: Reel, mut fields: Fields) -> Result<Reel, LineError> {
    let position = fields.unsigned(ARGUMENT_MAX)?;
    let mut list = [0i32; LISTED_MAX];
    let coefficients = listed(fields, &mut list)?;
    told(
        out,
        "append",
        reel.append(position, coefficients),
        reel.append_reason(position, coefficients),
    )
}

// `correct K C..`.
pub fn correct<W: Write>(out: &mut W, reel: Reel, mut fields: Fields) -> Result<Reel, LineError> {
    let k = fields.unsigned(ARGUMENT_MAX)?;
    let mut list = [0i32; LISTED_MAX];
    let coefficients = listed(fields, &mut list)?;
    told(
        out,
        "correct",
        reel.correct(k, coefficients),
        reel.correct_reason(k, coefficients),
    )
}

// `read HEX`.
pub fn read<W: Write>(out: &mut W, reel: Reel, mut fields: Fields) -> Result<Reel, LineError> {
    let mut bytes = room(0);
    let block = fields.bytes(&mut bytes)?;
    fields.end()?;
    told(out, "read", reel.read(block), reel.read_reason(block))
}

// The greatest length of an output that a line may lend. The block of every reel is shorter.
pub const LENT_MAX: usize = 32_768;

// `write LEN`. Behind the answer stand all the lent bytes as they then are.
pub fn write<W: Write>(out: &mut W, reel: Reel, mut fields: Fields) -> Result<Reel, LineError>
    ensures { IfOk result (λ r. r ≡ reel) }
{
    // before any way out: behind one, the compiler would clear it twice
    let mut output: [u8; LENT_MAX] = filled(0xa5);
    let count = fields.unsigned(LENT_MAX as u32)? as usize;
    fields.end()?;
    let lent = &mut output[..count];
    let after = told(out, "wrote", reel.write(lent), None)?;
    out.write_all(b" ")?;
    if lent.is_empty() {
        out.write_all(b"-")?;
    }
    say_hex(out, lent)?;
    Ok(after)
}

// The one number that is left.
fn last(mut fields: Fields) -> Result<u32, Unreadable> {
    let x = fields.unsigned(ARGUMENT_MAX)?;
    fields.end()?;
    Ok(x)
}

// `value X`. It and `trend X` stay two, as those of the reel do: each promises whose reel goes on, and one function
// over the call would have to ask it of that call first.
pub fn value<W: Write>(out: &mut W, reel: Reel, fields: Fields) -> Result<Reel, LineError>
    ensures { IfOk result (λ r. r ≡ reel) }
{
    let x = last(fields)?;
    told(out, "value", reel.value(x), None)
}

// `trend X`.
pub fn trend<W: Write>(out: &mut W, reel: Reel, fields: Fields) -> Result<Reel, LineError>
    ensures { IfOk result (λ r. r ≡ reel) }
{
    let x = last(fields)?;
    told(out, "trend", reel.trend(x), None)
}

// `total I J`.
pub fn total<W: Write>(out: &mut W, reel: Reel, mut fields: Fields) -> Result<Reel, LineError>
    ensures { IfOk result (λ r. r ≡ reel) }
{
    let i = fields.unsigned(ARGUMENT_MAX)?;
    let j = last(fields)?;
    told(out, "total", reel.total(i, j), None)
}
