//! The spellings of values in AMF 3: which fields spell a value, what is refused in a field, what has no spelling, and the
//! laws of canonical spellings; and the markers by which readers and writers know the kinds of values.
#![tactic(auto)]

mod facts;
mod laws;
mod marker;

pub use facts::{fields_agree, forgets, kind_rows, lack_rows, more_rows3, rows3};
pub use laws::{
    canonical_decides, canonical_exists, canonical_is_alone, isomorphic_have_same_canonical,
    isomorphic_is_equivalence, order_decides, same_bytes_are_isomorphic, sort_is_by_name,
    spelling_or_lack, table_is_order,
};
pub use marker::{Marker, node_marker};
