//! What a JSON text of AMF data says, as it stands there: values, nodes, pages of nodes, and documents of pages; and what it means: the
//! same with graphs in place of pages.
#![tactic(auto)]

mod entry;
mod page;
mod sheet;
mod written;

pub use entry::{Entry, with_entry, with_pair};
pub use page::{Class, Document, Header, Message, Node, Page, Sheet};
pub use written::{FileVersion, PacketForm, Written, WrittenHeader, WrittenMessage};
