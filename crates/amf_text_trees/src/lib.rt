//! What has been gathered of a JSON text behind each token, and that it comes to what the text means. No code stands here.
#![tactic(auto)]

mod facts;

pub use facts::{tree_laws, tree_rows};
