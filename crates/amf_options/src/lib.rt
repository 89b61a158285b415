//! Reads options out of the words of a command line, and knows no command.
#![tactic(auto)]

mod laws;
mod options;

pub use laws::options_have_one_value;
pub use options::options_of;
