//! What is read of bytes, for the crates of tests: graphs, and readings told as texts.
#![tactic(auto)]

mod graphs;
mod read0;
mod read3;
mod reading;
mod told;

pub use graphs::{NoGraph, graph0, graph3, rooted_at};
pub use read0::told0;
pub use read3::{told_texts3, told3};
pub use reading::Reading;
pub use told::end_told;
