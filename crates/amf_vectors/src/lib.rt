//! Graphs that are made of a seed, as large inputs; and values with their canonical spellings.
#![tactic(auto)]

mod facts;
mod maker;
mod numbers;
mod vector;

pub use facts::made_rows;
pub use maker::{MAX_SIZE, make};
pub use vector::{Vector, vectors};
