//! Lists graphs as text: a line for the root, and a line for each node to which it leads, in canonical order; and counts those
//! nodes.
#![tactic(auto)]

mod class_text;
mod contents;
mod counting;
mod digits;
mod entries;
mod facts;
mod hex_pairs;
mod line_number;
mod lister;
mod listing;
mod node;
mod numbers;
mod objects;
mod pairs;
mod piece;
mod text;
mod value;
mod vectors;

pub use counting::count_nodes;
pub use facts::{listing_laws, listing_rows};
pub use listing::{graph_listing, show};
pub use numbers::push_word;
pub use text::show_text;
