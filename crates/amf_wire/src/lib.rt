//! Numbers, texts and double patterns, as they stand in AMF bytes.
#![tactic(auto)]

mod big_endian;
mod facts;
mod integer;
mod memory;
mod name;
mod pattern;
mod text;
mod u29;
mod u29_bytes;
mod u29_read;

pub use big_endian::{be16_at, be32_at, be64_at};
pub use facts::{one_shortest_u29, worked_facts};
pub use integer::{sign29, unsign29};
pub use memory::Memory;
pub use name::{Name, NameEnd};
pub use pattern::{Pattern, pattern_of, patterns_are_inverse, whole_numbers, whole_of};
pub use text::{first_bad, is_amf_text};
pub use u29::U29;
pub use u29_bytes::{U29Bytes, write_u29};
pub use u29_read::{U29Read, read_u29};
