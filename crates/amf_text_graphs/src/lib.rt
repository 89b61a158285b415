//! Makes the graphs of the pages that a JSON text of AMF data says, or finds the first label that leads nowhere.
#![tactic(auto)]

mod book;
mod calls;
mod documents;
mod graphs;
mod items;
mod leaves;
mod lookup;
mod names;
mod nodes;
mod ordered;
mod parts;
mod rows;
mod values;

pub use calls::lost_call;
pub use documents::document_with_graphs;
