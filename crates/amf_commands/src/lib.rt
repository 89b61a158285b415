//! The commands of data: what the words of a command line ask for, what is read of an input in each format, the output that is
//! made of it and written, and the status and the error line of each end. Nothing here opens a link, waits or starts a thread.
#![tactic(auto)]

mod command;
mod command_name;
mod content;
mod facts;
mod format;
mod lines;
mod making;
mod number;
mod output;
pub mod perform;
mod reading;
mod report;
mod run_end;
mod spelling;
mod version;

pub use command::{CallOptions, Command, ListenOptions, ServeOptions, Task};
pub use content::Content;
pub use facts::run_rows;
pub use format::Format;
pub use reading::{LIMIT, read_in_format};
pub use report::end_with;
pub use run_end::RunEnd;
pub use spelling::{SpellEnd, spell, spell3};
