//! A graph that is told out of order: nodes have numbers when they begin, and their parts are told when they are complete.
#![tactic(auto)]

mod filling;
mod kept;
mod labels;
mod parts;
mod row;
mod sheet;

pub use labels::{FIRST_LABEL, linked_value};
pub use sheet::Sheet;
