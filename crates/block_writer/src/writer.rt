// Writing a block: its words one after the other.
ghost use Rattle.std.specs.Prelude.{◌≡◌, ◌+◌, ◌*◌, ◌≤◌, length as list_length};
ghost use Rattle.std.proofs.lemmas.List.Edits.{sets};
ghost use Rattle.rounding.specs.Limits.{knots_max};
ghost use Rattle.knot.specs.Machine.{scan, scans};
ghost use Rattle.block.specs.Bytes.{bytes};
ghost use Rattle.block.specs.Block.{block, scan_words, written};

use block::PLAIN_EDITION;
use knot::Knot;
use word::{coefficient_word, end_word, header_word, knot_word, store};

// The number of bytes of the block of these knots: a header, the knots' words and the end word.
pub fn length(knots: &[Knot]) -> usize
    requires { list_length knots.now ≤ knots_max }
    ensures { result ≡ list_length (block (scans knots.now)) }
{
    let words: usize = knots.iter().map(|knot| usize::from(knot.grade) + 2).sum();
    4 * (words + 2)
}

// Puts a knot's words in the places from i on, and gives the place after them.
fn write_knot(knot: &Knot, out: &mut [u8], i: usize) -> usize
    requires { 4 * (i + (knot.now.grade + 2)) ≤ list_length out.old }
    ensures { (result ≡ i + (knot.now.grade + 2))
        × (out.new ≡ sets out.old (4 * i) (bytes (scan_words (scan knot.now)))) }
{
    store(out, i, knot_word(knot.position, knot.grade));
    let list = knot.list();
    for (j, c) in list.iter().enumerate() {
        store(out, i + 1 + j, coefficient_word(*c));
    }
    i + 1 + list.len()
}

// Puts that block in the first bytes, and gives their number.
pub fn write(knots: &[Knot], out: &mut [u8]) -> usize
    requires { (list_length knots.now ≤ knots_max) × (list_length (block (scans knots.now)) ≤ list_length out.old) }
    ensures { (result ≡ list_length (block (scans knots.now))) × (out.new ≡ written (scans knots.now) out.old) }
{
    store(out, 0, header_word(knots.len() as u8, PLAIN_EDITION));
    let mut i = 1;
    for knot in knots {
        i = write_knot(knot, out, i);
    }
    store(out, i, end_word(i as u32));
    4 * (i + 1)
}
