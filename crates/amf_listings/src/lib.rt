//! What is seen of packets and of shared object files: their listings, how many nodes a packet has, and when two of them are
//! the same.
#![tactic(auto)]

mod facts;
mod file_listing;
mod file_lowering;
mod packet_body;
mod packet_lines;
mod packet_listing;
mod packet_lowering;
mod packet_nodes;

pub use facts::{file_laws, file_listing_rows, packet_laws, packet_listing_rows};
pub use file_listing::show_file;
pub use file_lowering::file_has_lowering;
pub use packet_listing::show_packet;
pub use packet_lowering::packet_has_lowering;
pub use packet_nodes::count_packet_nodes;
