// The readings of one knot. The reel keeps none; the reader steps over them, and a view shows them.
ghost use Rattle.std.specs.Prelude.{◌^◌, ◌<◌, drop};
ghost use Rattle.block.specs.Bytes.{words};
ghost use Rattle.block.specs.Reading.{reading_words};
ghost use Rattle.word_faults.specs.Machine.{Counts};

use crate::faults::{is_reading, reading_fault};
use block::READINGS_EDITION;
use knot::Refusal;
use word::load;

// How many stand from a word on, in a block of this edition; or the first fault.
pub fn count_readings(block: &[u8], edition: u32, from: usize) -> Result<usize, Refusal>
    requires { from < 2 ^ 32 }
    ensures { Counts result (reading_words edition (drop from (words block.now))) }
{
    if edition != u32::from(READINGS_EDITION) {
        return Ok(0);
    }
    let mut count = 0;
    // No `for` up to the 33rd: its fault is a return, and behind the loop would stand a value that is never reached.
    loop {
        let word = load(block, from + count);
        if !is_reading(word) {
            return Ok(count);
        }
        reading_fault(count, word)?;
        count += 1;
    }
}
