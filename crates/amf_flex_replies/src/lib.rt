//! What a message of a Flex client is answered: commands, polls, messages to publish and calls by RemotingMessages.
#![tactic(auto)]

mod batches;
mod command;
mod commands;
pub mod flex;
mod polls;
mod publishing;
mod remoting;
pub mod replies;
mod stored;
mod sync_messages;
