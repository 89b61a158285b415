//! The JSON text (RFC 8259) of what an input holds: a value, a packet or a shared object file.
#![tactic(auto)]

mod facts;
mod file;
mod packet;
mod ready;
mod value;

pub use amf_text_write::{Layout, ValueForm};
pub use facts::json_laws;
pub use file::file_json;
pub use packet::packet_json;
pub use ready::{file_is_ready, packet_is_ready, value_is_ready};
pub use value::value_json;
