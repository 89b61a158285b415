//! The spellings of values in AMF 0 (Adobe, 2007): which fields spell a value, what is refused in a field, the graph in the
//! kinds that AMF 0 has, why such a graph has no canonical spelling, the laws of these, and
//! the tables of a reader.
#![tactic(auto)]

mod facts;
mod form;
mod laws;
mod marker;
mod tables0;

pub use facts::{fields_agree0, forgets0, lack_rows0, leaves0, lowerings, nodes0};
pub use form::Form;
pub use laws::{
    canonical_converts, canonical0_decides, canonical0_is_alone, graphs_have_one_lowering,
    isomorphic_have_same_canonical0, met_again_is_twice, same_bytes0_are_isomorphic,
    spelling_or_lack0, values_have_one_form,
};
pub use marker::Marker0;
pub use tables0::Tables0;
