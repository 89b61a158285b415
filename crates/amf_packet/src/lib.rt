//! AMF packets (AMF 0, 4.1 to 4.3): a version, headers and messages, each with a value of AMF 0.
#![tactic(auto)]

mod body;
mod facts;
mod packet;
mod packet_end;
mod read;
mod read_body;
mod read_field;
mod spelled_body;
mod unpacked;
mod write;
mod write_body;
mod write_parts;
mod write_spelled;
mod write_texts;

pub use body::Body;
pub use facts::{packet_rows, packet_verdict_rows, packets_are_same, packets_have_one_verdict};
pub use packet::{Header, Headers, Message, Messages, Packet};
pub use packet_end::PacketEnd;
pub use read::{read_packet, read_packet_keyed};
pub use spelled_body::SpelledBody;
pub use unpacked::packet_in;
pub use write::{write_packet, write_packet_keyed};
pub use write_spelled::{SpelledMessage, spelled_packet};
