//! Reads a JSON text of AMF data to what it means, or says why it means nothing.
#![tactic(auto)]

mod text;

pub use amf_text_pages::{FileVersion, PacketForm, Written, WrittenHeader, WrittenMessage};
pub use amf_text_read::Refusal;
pub use text::{TextEnd, read_text};
