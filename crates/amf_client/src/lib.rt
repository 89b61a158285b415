//! The calling end of a gateway: a call is written to a link, and what answers it is read.
#![tactic(auto)]

mod call;
mod ends;
mod judge;
mod laws;
mod meaning;
mod result;

pub use call::{request_bytes, write_call, write_call_keyed};
pub use ends::{AnswerFault, AskEnd};
pub use laws::{an_answer_stands, one_answer, worked_rows};
pub use result::{read_result, read_result_keyed};

/// The bytes that were read from a link and belong to no reply yet. A contract sees them as a list.
pub type ReplyBuffer = http_link::LinkBuffer;
