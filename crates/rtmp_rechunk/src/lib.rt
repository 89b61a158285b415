//! Writes RTMP chunk streams again, in chunks of another size; and the pass by which it does so: what a handler makes of each message is written to a sink.
#![tactic(auto)]

mod handler;
mod pass;
mod pass_end;
mod reading;
mod rechunk_run;
mod rechunker;
mod rechunking;
mod writing;

pub use handler::Handler;
pub use pass::pass_over;
pub use pass_end::PassEnd;
pub use rechunk_run::rechunk;
pub use rechunker::Rechunker;
pub use rechunking::{rechunk_rows, rechunked_bytes};
