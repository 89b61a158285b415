//! Numbers the nodes of graphs in canonical order, places them in it, and tells which graphs are the same but for the
//! numbers of their nodes, texts and traits, the order of pairs of different names, and nodes that the root does not
//! lead to.
#![tactic(auto)]

mod compare;
mod equal_texts;
mod heads;
mod last_order;
mod matches;
mod met;
mod numbering;
mod pairs;
mod relabelling;
mod waiting;
mod walk;

pub use compare::isomorphic;
pub use last_order::LastOrder;
pub use met::values_met;
pub use numbering::Numbering;
pub use pairs::{are_by_name, by_name, ids_by_name};
pub use relabelling::relabel;
