//! What plain remoting is answered: calls of services by the targets of the messages of a packet.
#![tactic(auto)]

mod faults;
pub mod plain_call;
mod target;
