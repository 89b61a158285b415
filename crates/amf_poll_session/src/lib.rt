//! Polls of the gateway on this machine that survive losses: a request that is lost is sent again over another link, and each batch is taken once.
#![tactic(auto)]

mod asking;
mod ends;
mod kind;
mod laws;
mod listening;
mod output;
mod over_link;
mod reply;
mod request;
mod session;

pub use ends::ListenEnd;
pub use laws::{batches_are_read, each_session, what_was_published_is_written, worked_sessions};
pub use listening::{listen, listen_keyed};
