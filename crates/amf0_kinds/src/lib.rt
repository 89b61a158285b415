//! Tells which graphs have the kinds of nodes and values that AMF 0 has, and no others, so that lowering changes nothing.
#![tactic(auto)]

mod kinds;

pub use kinds::has_only_kinds0;
