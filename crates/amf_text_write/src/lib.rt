//! Writes the canonical text of AMF data, JSON (RFC 8259): of values, shared object files and packets.
#![tactic(auto)]

mod doubles;
mod files;
mod graphs;
mod layout;
mod leaves;
mod levels;
mod meetings;
mod members;
mod names;
mod nodes;
mod objects;
mod packets;
mod scalars;
mod sealed;
mod table;
mod values;
mod vectors;
mod waiting;
mod walk;
mod way;

pub use files::{FileVersion, file_text};
pub use layout::Layout;
pub use packets::{HeaderTexts, MessageTexts, PacketForm};
pub use values::{ValueForm, value_text};
