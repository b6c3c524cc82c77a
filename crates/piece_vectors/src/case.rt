// One case: its fields, and its answers.
ghost use Rattle.std.specs.Prelude.{◌+◌, ◌<◌};

use super::admit::admitted;
use knot::COEFFICIENTS_MAX;
use std::io::Write;
use std::{array, io};
use word::load;

// A magnitude below 2^31, and 2^31 more for a negative number.
fn signed(word: u32) -> i32 {
    match word.checked_sub(1 << 31) {
        Some(size) => -(size as i32),
        None => word as i32,
    }
}

// The 8 coefficients from a word on.
fn coefficients(bytes: &[u8], from: usize) -> [i32; COEFFICIENTS_MAX]
    requires { from < 20 }
{
    array::from_fn(|j| signed(load(bytes, from + j)))
}

// Value, trend and total; `refused` where the piece cannot be one of a reel, which no stored case is.
fn answer<W: Write>(out: &mut W, h: u64, left: &[i32], right: &[i32], r: u64) -> io::Result<()> {
    if !admitted(h, left, right, r) {
        return writeln!(out, "refused");
    }
    let value = piece::value(h, left, right, r);
    let trend = piece::trend(h, left, right, r);
    let total = water::total(h, left, right);
    writeln!(out, "{value} {trend} {total}")
}

// Answers the case in these bytes; one with more than 8 coefficients at an end is passed over.
pub fn run<W: Write>(out: &mut W, bytes: &[u8]) -> io::Result<()> {
    let h = u64::from(load(bytes, 0));
    let left_count = load(bytes, 1) as usize;
    let right_count = load(bytes, 2) as usize;
    let r = u64::from(load(bytes, 3));
    let left = coefficients(bytes, 4);
    let right = coefficients(bytes, 12);
    match (left.get(..left_count), right.get(..right_count)) {
        (Some(left), Some(right)) => answer(out, h, left, right, r),
        _ => Ok(()),
    }
}
