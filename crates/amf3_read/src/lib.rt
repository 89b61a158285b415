//! Reads AMF 3 values.
#![tactic(auto)]

mod class;
mod fill;
mod frame;
mod frames;
mod header;
mod laws;
mod leaf;
mod node;
mod number;
mod opening;
mod plain;
mod text;
mod traits;
mod value;
mod values;

pub use laws::{pairs_have_one_verdict, texts_have_one_verdict};
pub use text::{read_text, read3_text};
pub use value::{read_value, read3};
pub use values::Values3;
