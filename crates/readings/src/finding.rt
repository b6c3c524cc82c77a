// Where the readings of a knot stand in a block, and the i-th of those that a view shows.
ghost use Rattle.std.proofs.Math.Option.{none};
ghost use Rattle.std.specs.Prelude.{◌≡◌, ◌^◌, ◌<◌, length};
ghost use Rattle.std.proofs.Math.ListN.{get_elem?};
ghost use Rattle.scans.specs.RefusalTable.{first};
ghost use Rattle.block.specs.Bytes.{words};
ghost use Rattle.block.specs.Reading.{block_causes, list_of, reading_causes};
ghost use Rattle.block.specs.View.{readings_of};
ghost use Rattle.readings.specs.Machine.{Selects, Spans, Stands, reading_shown, strided, words_behind};

use knot::{Fault, Refusal};
use word::{edition, grade, load, reading};
use word_faults::count_readings;

// Readings in a block: the word of the first, and how many.
#[derive(Clone, Copy)]
pub struct Span {
    pub start: u32,
    pub count: u32,
}

// Those of the knot whose word is word i.
fn span_behind(block: &[u8], edition: u32, i: usize) -> Span
    requires near { i < 2 ^ 31 }
    requires accepted { first (reading_causes 0 (words_behind edition (words block.now) i)) ≡ none }
    ensures { Stands result edition (words block.now) i }
{
    let start = i + grade(load(block, i)) as usize + 2;
    let count = count_readings(block, edition, start).unwrap();
    Span {
        start: start as u32,
        count: count as u32,
    }
}

// Those of knot k of an accepted block. Knot by knot: the words of the knot, then its readings.
fn span_of(block: &[u8], k: u32) -> Span
    requires { (first (block_causes block.now) ≡ none) × (k < length (list_of block.now)) }
    ensures { Spans result (words block.now) (readings_of block.now k) }
{
    let edition = edition(load(block, 0));
    let mut i = 1;
    for _j in 0..k {
        let passed = span_behind(block, edition, i);
        i = passed.start as usize + passed.count as usize;
    }
    span_behind(block, edition, i)
}

// Every n-th reading of knot k, the first included, from word `start` on at every n-th word; or the first cause: the
// reader's, then 9, then 11.
pub fn select(block: &[u8], k: u32, n: u32) -> Result<Span, Refusal>
    ensures { Selects result block.now k n }
{
    let contents = block_reader::read(block).map_err(Fault::cause)?;
    if contents.count <= k as usize {
        return Err(Refusal::Index);
    }
    if n == 0 {
        return Err(Refusal::Stride);
    }
    let all = span_of(block, k);
    Ok(Span {
        start: all.start,
        count: all.count.div_ceil(n),
    })
}

// The i-th of those that stand from word `start` on at every `stride`-th word, `count` of them; none past the last.
// The parts of a view stay apart here: document 01's form is thin functions of a struct after a slice function.
pub fn shown_at(block: &[u8], start: u32, count: u32, stride: u32, i: u32) -> Option<u16>
    ensures { reading_shown result ≡ get_elem? (strided (words block.now) start stride count) i }
{
    if count <= i {
        return None;
    }
    let at = start as usize + i as usize * stride as usize;
    Some(reading(load(block, at)) as u16)
}
