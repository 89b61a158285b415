//! What a gateway answers to the bytes of a link: Flex requests and plain remoting over HTTP.
#![tactic(auto)]

mod at_hand;
mod bodies;
mod caller;
mod crosses;
mod links;
mod packets;
mod serve;
mod worker;

pub use at_hand::AtHand;
pub use links::LinkEnd;
pub use serve::{serve_link, serve_link_keyed};
pub use worker::{Worker, WorkerEnd};
