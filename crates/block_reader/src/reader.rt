// Reading a block: a knot word, its coefficient words, its readings, the next knot; and the first fault ends it.
ghost use Rattle.std.proofs.Math.Option.{none};
ghost use Rattle.std.specs.Prelude.{◌≡◌, ◌≤◌};
ghost use Rattle.rounding.specs.Limits.{knots_max};
ghost use Rattle.scans.specs.RefusalTable.{first};
ghost use Rattle.block.specs.Bytes.{words};
ghost use Rattle.block.specs.Block;
ghost use Rattle.block.specs.Block.{plain_edition};
ghost use Rattle.block.specs.Reading.{block_causes, edition_of, list_of};
ghost use Rattle.block_reader.specs.Machine.{Reads, ReadsKnots};

use crate::contents::Contents;
use following::{follow_reason, neighbour_position};
use knot::{COEFFICIENTS_MAX, Fault, KNOTS_MAX, Knot, Refusal};
use word::{edition, grade, kind, knot_count, load, payload, position};
use word_faults::{count_readings, end_fault, header_fault, knot_fault, length_fault};

// The knots of a block of this edition, from its second word on.
fn read_knots(block: &[u8], edition: u32, count: usize) -> Result<Contents, Fault>
    requires { count ≤ knots_max }
    ensures { ReadsKnots result edition count (words block.now) }
{
    let mut knots = [Knot::FREE; KNOTS_MAX];
    let mut i = 1;
    // Document 01's form, left by a label. The block has it and not the loop, since a `for` is left with no value.
    'words: {
        for k in 0..count {
            let last = knots[..k].last();
            let word = load(block, i);
            if let Err(cause) = knot_fault(neighbour_position(last), word) {
                break 'words Err(Fault::Cause(cause));
            }
            let m = grade(word) as usize;
            let mut coefficients = [0i32; COEFFICIENTS_MAX];
            for j in 0..=m {
                let word = load(block, i + 1 + j);
                match kind(word) {
                    2 => coefficients[j] = payload(word),
                    _ => break 'words Err(Fault::Cause(Refusal::Form)),
                }
            }
            let next = Knot {
                position: position(word) as u16,
                grade: m as u8,
                coefficients,
            };
            if let Err(spot) = follow_reason(k as u32, last, &next) {
                break 'words Err(Fault::TooLarge(spot));
            }
            let behind = i + m + 2;
            match count_readings(block, edition, behind) {
                Ok(readings) => i = behind + readings,
                Err(cause) => break 'words Err(Fault::Cause(cause)),
            }
            knots[k] = next;
        }
        end_fault(block, i)?;
        Ok(Contents { knots, count })
    }
}

// Every list of bytes: its first fault in word order, or its list. An accepted block of edition 1 is the block of its
// list.
pub fn read(block: &[u8]) -> Result<Contents, Fault>
    ensures reads { Reads result (first (block_causes block.now)) (list_of block.now) }
    ensures block_value { first (block_causes block.now) ≡ none → edition_of block.now ≡ plain_edition →
        Block.block (list_of block.now) ≡ block.now }
{
    length_fault(block.len())?;
    let word = load(block, 0);
    header_fault(word)?;
    read_knots(block, edition(word), knot_count(word) as usize)
}
