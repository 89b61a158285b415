//! Reads AMF 0 values.
#![tactic(auto)]

mod beginning;
mod fill;
mod formed;
mod frame;
mod leaf;
mod marker;
mod node;
mod text;
mod value;

pub use formed::Read0;
pub use text::read_short_text;
pub use value::{read_value0, read0};
