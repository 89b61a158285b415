//! The layout of a value in AMF 3, by which a reader is proved: which field follows which; and the laws of the verdict on
//! an input, which stand on it.
#![tactic(auto)]

mod facts;
mod layout_laws;
mod verdict_laws;

pub use facts::verdict_rows;
pub use layout_laws::{
    layouts_are_of_spellings, layouts_are_sound, layouts_complete_starts, layouts_grow,
    layouts_read_only_spellings, layouts_read_spellings, values_are_spellings,
};
pub use verdict_laws::{
    bytes_fix_fields, bytes_fix_next_kind, faults_are_first, inputs_have_one_verdict,
    values_have_one_verdict,
};
