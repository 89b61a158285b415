//! Tables of rows as texts, for tests: a line of a text is a row of fields that are parted by `|`.
#![tactic(auto)]

mod bytes;
mod parts;
mod row;
mod table;

pub use bytes::bytes_of;
pub use parts::push_part;
pub use row::{Row, Wrong};
pub use table::Table;
