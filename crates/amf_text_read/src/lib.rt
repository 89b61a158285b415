//! Reads the JSON text of AMF data. So far: what its numbers, words and hexadecimal digits mean, where its tokens stand, and whether a
//! text means something, but for its labels.
#![tactic(auto)]

mod asked;
mod called;
mod cut;
mod goal;
mod held;
mod judge;
mod meets;
mod mode;
mod names;
mod nested;
mod next;
mod number_table;
mod place;
mod reasons;
mod scalars;
mod stop;
mod table;
mod tag;
mod verdict;
mod word_table;

pub use asked::Asked;
pub use called::label_place;
pub use goal::{Goal, Key};
pub use place::{ends_inside, line_and_column, place_of};
pub use scalars::{
    as_int, as_integer, as_uint, hex_bytes, number_pattern, number_whole, word_pattern,
};
pub use tag::{Tag, tag_of};
pub use verdict::{Refusal, text_verdict};
