//! Reads and writes RTMP chunk streams.
#![tactic(auto)]

mod chunker;
mod chunks;
mod data;
mod fields;
mod handshake;
mod headers;
mod laws;
mod parts;
mod table;

pub use chunker::ChunkEnd;
pub use handshake::read_handshake;
pub use laws::{
    calls_tell, one_meaning, one_verdict, pushed_reads, reading_tells, rechunked, worked_rows,
};
pub use parts::{Chunker, Chunks, Message, MessageBytes, Open};
