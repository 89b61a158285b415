//! What `bytes` writes: a JSON text of AMF data is read, and the canonical bytes are made of the value, the packet or the file
//! that it means.
#![tactic(auto)]

mod ending;
mod facts;
mod making;
mod meaning;
mod packets;
mod run;
mod taking;

pub use amf_text::TextReason;
pub use amf_text_draft::Refusal;
pub use ending::BytesEnd;
pub use facts::{first_faults, there_and_back};
pub use run::write_bytes;
