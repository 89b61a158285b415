//! Workers at one desk, each in a thread of its own.
#![tactic(auto)]

mod answer;
mod gather;
mod hire;
mod hired_worker;
mod opening;
mod serving;
mod work;

pub use answer::ServeAnswer;
pub use serving::serve;
