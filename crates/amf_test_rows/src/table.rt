use crate::row::{Row, Wrong};
use std::alloc::Global;

/// Rows as a text. A line that is empty or begins with `#` is no row. How many rows there are, and how many fields each
/// has, stands beside the text, so that none is lost.
#[derive(Clone, Copy, Debug)]
pub struct Table {
    pub rows: usize,
    pub fields: usize,
    pub text: &'static str,
}

impl Table {
    /// The rows, unless there are none or another number of them, or one has another number of fields.
    pub fn rows(&self, alloc: Global) -> Result<Vec<Row<'static>>, Wrong> {
        let mut rows = Vec::new(alloc);
        let mut line = 0_u32;
        for text in self.text.lines() {
            line = line.wrapping_add(1);
            if is_row(text) {
                rows.push(self.row(line, text)?)?;
            }
        }
        if rows.is_empty() || rows.len() != self.rows {
            return Err(Wrong {
                line,
                what: "another number of rows",
            });
        }
        Ok(rows)
    }

    fn row(&self, line: u32, text: &'static str) -> Result<Row<'static>, Wrong> {
        let row = Row::new(line, text);
        if row.width() == self.fields {
            Ok(row)
        } else {
            Err(row.wrong("another number of fields"))
        }
    }
}

fn is_row(text: &str) -> bool {
    let text = text.trim();
    !text.is_empty() && !text.starts_with('#')
}
