//! What comes back of a call: what the calling end writes, our own gateway answers, and the calling end reads.
#![tactic(auto)]

mod laws;

pub use laws::{
    a_call_comes_back, a_call_is_answered, a_call_is_one_request, a_call_is_quiet,
    an_answer_is_one_reply, an_echo_comes_back, an_exchange_tells, worked_rounds,
};
