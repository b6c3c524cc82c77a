// The workshop's calls, which take a block and leave the reel alone: `view HEX K N` and `viewat HEX K N I`.
use crate::answers::refused;
use crate::line_error::LineError;
use crate::reel_calls::ARGUMENT_MAX;
use fields::{Fields, Unreadable, room};
use knot::Refusal;
use readings::{View, look};
use reel::Reel;
use std::io;
use std::io::Write;

// A reading with what stands before it, or that it is past the last.
fn say<W: Write>(out: &mut W, shown: Option<u16>, before: &str) -> io::Result<()> {
    match shown {
        Some(reading) => write!(out, "{before}{reading}"),
        None => out.write_all(b"past"),
    }
}

// Why a view is refused; where it is the reader's 6, with the reason that a read of the block has.
fn say_refused<W: Write>(out: &mut W, cause: Refusal, block: &[u8]) -> io::Result<()> {
    refused(out, cause, Reel::empty().read_reason(block))
}

// How many readings are shown of knot k, and each of them.
fn say_view<W: Write>(out: &mut W, block: &[u8], k: u32, n: u32) -> io::Result<()> {
    match View::of(block, k, n) {
        Ok(view) => {
            write!(out, "view {}", view.count())?;
            for i in 0..view.count() {
                say(out, view.at(i), " ")?;
            }
            Ok(())
        }
        Err(cause) => say_refused(out, cause, block),
    }
}

// The reading shown of knot k that has the index i.
fn say_reading<W: Write>(out: &mut W, block: &[u8], k: u32, n: u32, i: u32) -> io::Result<()> {
    match look(block, k, n, i) {
        Ok(seen) => say(out, seen.shown, "reading "),
        Err(cause) => say_refused(out, cause, block),
    }
}

// `HEX K N`.
fn asked<'r>(fields: &mut Fields, room: &'r mut [u8]) -> Result<(&'r [u8], u32, u32), Unreadable> {
    let block = fields.bytes(room)?;
    let k = fields.unsigned(ARGUMENT_MAX)?;
    let n = fields.unsigned(ARGUMENT_MAX)?;
    Ok((block, k, n))
}

// `view HEX K N`.
pub fn view<W: Write>(out: &mut W, mut fields: Fields) -> Result<(), LineError> {
    let mut bytes = room(0);
    let (block, k, n) = asked(&mut fields, &mut bytes)?;
    fields.end()?;
    Ok(say_view(out, block, k, n)?)
}

// `viewat HEX K N I`.
pub fn view_at<W: Write>(out: &mut W, mut fields: Fields) -> Result<(), LineError> {
    let mut bytes = room(0);
    let (block, k, n) = asked(&mut fields, &mut bytes)?;
    let i = fields.unsigned(ARGUMENT_MAX)?;
    fields.end()?;
    Ok(say_reading(out, block, k, n, i)?)
}
