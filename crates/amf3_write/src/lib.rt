//! Writes AMF 3 values canonically.
#![tactic(auto)]

mod facts;
mod first_lack;
mod graph_tables;
mod leaves;
mod nodes;
mod open;
mod output;
mod pairs;
mod part;
mod traits;
mod unwritten;
mod values;
mod write;

pub use facts::part_lack_rows;
pub use graph_tables::GraphTables;
pub use nodes::is_unnamed;
pub use part::{write3_part, write3_part_of, write3_text, write3_text_of};
pub use write::{write3, write3_keyed};
