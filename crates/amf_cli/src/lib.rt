//! What the program `amf` does: writes the canonical spelling of any value of AMF 3 or AMF 0, in either, of any packet and of any
//! shared object file, checks it, lists it, writes it as JSON and back, tells whether two values are the same graph, lists and
//! rewrites FLV files and RTMP chunk streams, serves and makes remoting calls over HTTP, polls a gateway, and tells its version.
#![tactic(auto)]

mod arguments;
mod calling;
pub mod data;
mod ending;
mod facts;
mod lines;
mod listening;
mod media;
mod no_input;
pub mod run;
mod services;
mod serving;
pub mod start;
mod telling;
mod textual;

pub use amf_commands::{
    CallOptions, Command, Format, ListenOptions, RunEnd, ServeOptions, Task, end_with, run_rows,
};
pub use arguments::{Arguments, Environment, words_of};
pub use facts::serve_rows;
pub use services::start_with_services;
