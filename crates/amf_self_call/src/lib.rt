//! A call over memory, from the calling end to our own gateway and back.
#![tactic(auto)]

mod calls;
mod conditions;
mod ends;
mod wires;

pub use calls::round;
pub use conditions::may_call;
pub use ends::RoundEnd;
