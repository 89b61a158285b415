//! The layout of a value in AMF 0, by which a reader is proved: which field follows which; and the laws of the verdict on
//! an input, which stand on it.
#![tactic(auto)]

mod facts;
mod layout_laws;
mod verdict_laws;

pub use facts::verdict_rows0;
pub use layout_laws::{layouts0_are_of_spellings, layouts0_are_sound, values0_are_spellings};
pub use verdict_laws::{
    bytes_fix_fields0, bytes_fix_next_kind0, faults0_are_first, inputs0_have_one_verdict,
    values0_have_one_verdict,
};
