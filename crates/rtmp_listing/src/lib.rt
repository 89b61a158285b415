//! Lists the messages of RTMP chunk streams as text.
#![tactic(auto)]

mod lines;
mod lister;
mod values;

pub use lister::Lister;
