//! Laws of the JSON text of AMF data: there and back through that of AMF 0, whose graphs are told lowered, the verdict on a text,
//! and how much a text can mean.
#![tactic(auto)]

mod facts;

pub use facts::{few_nodes, one_verdict, there_and_back};
