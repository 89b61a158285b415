//! One call of the gateway on this machine: it is dialled, the call is written and its answer read, and the link is given back.
#![tactic(auto)]

mod answer;
mod one_call;
mod over_link;
mod request;

pub use answer::CallAnswer;
pub use one_call::{call, call_keyed};
