//! Fields of plain bytes: numbers of fixed size and U29, contents behind a length, flags, doubles, and texts that enter no table.
#![tactic(auto)]

mod contents;
mod field;
mod field_bytes;
mod fixed;
mod kept_parts;
mod text;

pub use contents::{Contents, read_contents};
pub use field::{FieldSize, read_field, read_number};
pub use field_bytes::FieldBytes;
pub use fixed::{read_double, read_flag};
pub use kept_parts::kept;
pub use text::read_loose_text;
