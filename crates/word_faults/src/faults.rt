// The faults of a block: of its length and of each word at its place. A match on the kind number is document 01's form.
ghost use Rattle.std.specs.Prelude.{[], ◌∷◌, ◌-◌, List, drop, length, ◌≡◌, ℤ};
ghost use Rattle.scans.specs.RefusalTable.{first};
ghost use Rattle.knot.specs.Machine.{refusal};
ghost use Rattle.following.specs.Machine.{lying};
ghost use Rattle.block.specs.Bytes.{words};
ghost use Rattle.block.specs.Reading.{end_causes, header_causes, knot_causes, length_causes, reading_causes};
ghost use Rattle.block.specs.Reading.{is_edition, is_reading};

use block::{PLAIN_EDITION, READINGS_EDITION};
use following::position_cause;
use knot::{KNOTS_MAX, READINGS_MAX, Refusal};
use word::{
    edition, header_spare, kind, knot_count, knot_spare, load, position, reading_mark,
    reading_spare, words_before,
};

// Of the length in bytes.
pub fn length_fault(length: usize) -> Result<(), Refusal>
    ensures { refusal result ≡ first (length_causes length) }
{
    if length % 4 != 0 || length < 8 {
        return Err(Refusal::Form);
    }
    Ok(())
}

// The editions that are read.
fn is_edition(edition: u32) -> bool
    ensures { result ≡ is_edition edition }
{
    edition == u32::from(PLAIN_EDITION) || edition == u32::from(READINGS_EDITION)
}

// Of the first word: its form, then 2.
pub fn header_fault(word: u32) -> Result<(), Refusal>
    ensures { refusal result ≡ first (header_causes word) }
{
    match kind(word) {
        0 => {
            if !is_edition(edition(word)) || header_spare(word) != 0 {
                return Err(Refusal::Form);
            }
            if KNOTS_MAX < knot_count(word) as usize {
                return Err(Refusal::Full);
            }
            Ok(())
        }
        _ => Err(Refusal::Form),
    }
}

// Of a knot word after the position of the last knot, whatever its list is: its form, then 4 and 5.
pub fn knot_fault(last: Option<u16>, word: u32) -> Result<(), Refusal>
    ensures { (A : List ℤ) → refusal result ≡ first (knot_causes (lying last A) word) }
{
    match kind(word) {
        1 => {
            if knot_spare(word) != 0 {
                return Err(Refusal::Form);
            }
            position_cause(last, position(word))
        }
        _ => Err(Refusal::Form),
    }
}

// Whether a word is a reading, where readings may stand.
pub fn is_reading(word: u32) -> bool
    ensures { result ≡ is_reading word }
{
    match kind(word) {
        3 => reading_mark(word) == 1,
        _ => false,
    }
}

// Of a reading after `count` others of its knot: its form, then 12.
pub fn reading_fault(count: usize, word: u32) -> Result<(), Refusal>
    ensures { refusal result ≡ first (reading_causes count (word ∷ [])) }
{
    if reading_spare(word) != 0 {
        return Err(Refusal::Form);
    }
    if READINGS_MAX <= count {
        return Err(Refusal::Readings);
    }
    Ok(())
}

// Of the words from k on, where the end word is due: it is the last one, and counts the words before it.
pub fn end_fault(block: &[u8], k: usize) -> Result<(), Refusal>
    ensures { refusal result ≡ first (end_causes (length (words block.now) - 1)
        (drop k (words block.now))) }
{
    let count = block.len() / 4;
    if count == 0 || k != count - 1 {
        return Err(Refusal::Form);
    }
    let word = load(block, k);
    match kind(word) {
        3 => {
            if words_before(word) as usize != k {
                return Err(Refusal::Form);
            }
            Ok(())
        }
        _ => Err(Refusal::Form),
    }
}
