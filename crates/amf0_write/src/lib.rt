//! Lowers graphs to the kinds that AMF 0 has, and writes AMF 0 values canonically (Adobe, 2007).
#![tactic(auto)]

mod chains;
mod first_lack;
mod lowered;
mod lowered_node;
mod lowered_open;
mod lowering;
mod meeting;
mod meetings;
mod nodes;
mod open;
mod output;
mod part_lack;
mod rooms;
mod stop;
mod unwritten;
mod values;
mod write;

pub use first_lack::first_lack0;
pub use lowering::lower;
pub use write::{write_lowered0, write0, write0_part};
