//! What a link is answered, as a plan of single steps; and what the answers to Flex clients and to plain calls have in common.
#![tactic(auto)]

pub mod arrays;
pub mod calling;
pub mod causes;
pub mod context;
pub mod message_answer;
pub mod messages;
pub mod numbers;
pub mod outside;
