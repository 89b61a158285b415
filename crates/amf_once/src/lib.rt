//! Polls over a network that loses, repeats and reorders: a taker of numbered batches takes each message once and in order.
//!
//! A client that polls a server over a bad network cannot know whether a poll without an answer was lost on its way there,
//! with the batch still at the server, or on its way back, with the batch gone. So polls are numbered: the client asks for
//! batch 1, then 2 and so on, and repeats a number until an answer of it comes; the server hands out the batch of the next
//! number, and the last one once more for as long as that is asked for. [`Taker`] is the client's side of it, and needs no
//! memory. The server's side is `PollNumbered` of `amf_broker`. [`replay`] runs both against a list of [`Event`]s, and its
//! contract says what holds after every such list: nothing is lost, nothing comes twice, and all is in order.
#![tactic(auto)]

mod event;
mod exchange;
mod laws;
mod playing;
mod taker;
mod world;

pub use amf_broker::Deliveries;
pub use event::Event;
pub use laws::{each_is_taken_once, handed_to_owner, one_course};
pub use playing::replay;
pub use taker::{Taken, Taker};
pub use world::{Answers, World};
