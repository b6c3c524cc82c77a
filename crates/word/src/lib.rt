// The words of a block: their fields by shifts and masks, and their bytes.
#![tactic(auto)]

mod buffer;
mod masks;

pub use buffer::{load, store};
pub use masks::{
    coefficient_word, edition, end_word, grade, header_spare, header_word, kind, knot_count,
    knot_spare, knot_word, payload, position, reading, reading_mark, reading_spare, words_before,
};
