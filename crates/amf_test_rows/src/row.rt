use crate::bytes::bytes_of;
use crate::parts::push_part;
use std::alloc::{AllocError, AllocFailed, Global};

/// What is wrong with a table, and the number of its line, or 0.
#[derive(Clone, Copy, Debug, PartialEq)]
pub struct Wrong {
    pub line: u32,
    pub what: &'static str,
}

impl From<AllocError> for Wrong {
    fn from(_end: AllocError) -> Wrong {
        Wrong {
            line: 0,
            what: "no memory",
        }
    }
}

impl<T: Drop> From<AllocFailed<T>> for Wrong {
    fn from(failed: AllocFailed<T>) -> Wrong {
        AllocError::from(failed).into()
    }
}

/// A line of a table.
#[derive(Clone, Copy, Debug)]
pub struct Row<'t> {
    line: u32,
    text: &'t str,
}

impl<'t> Row<'t> {
    pub(crate) fn new(line: u32, text: &'t str) -> Row<'t> {
        Row { line, text }
    }

    /// The number of the line, from 1.
    pub fn line(&self) -> u32 {
        self.line
    }

    /// How many fields the row has.
    pub fn width(&self) -> usize {
        self.text.split('|').count()
    }

    pub(crate) fn wrong(&self, what: &'static str) -> Wrong {
        Wrong {
            line: self.line,
            what,
        }
    }

    /// A field, without the spaces around it.
    pub fn field(&self, place: usize) -> Result<&'t str, Wrong> {
        match self.text.split('|').nth(place) {
            Some(field) => Ok(field.trim()),
            None => Err(self.wrong("a field is lacking")),
        }
    }

    /// A field that is a decimal number.
    pub fn number(&self, place: usize) -> Result<u32, Wrong> {
        match self.field(place)?.parse::<u32>() {
            Ok(number) => Ok(number),
            Err(_) => Err(self.wrong("no number")),
        }
    }

    /// The numbers of a field that may have any count of them, with spaces between.
    pub fn numbers(&self, alloc: Global, place: usize) -> Result<Vec<u64>, Wrong> {
        let mut numbers = Vec::new(alloc);
        for word in self.field(place)?.split_whitespace() {
            match word.parse::<u64>() {
                Ok(number) => numbers.push(number)?,
                Err(_) => return Err(self.wrong("no number")),
            }
        }
        Ok(numbers)
    }

    /// The bytes of a field, as [`bytes_of`] reads them.
    pub fn bytes(&self, alloc: Global, place: usize) -> Result<Vec<u8>, Wrong> {
        match bytes_of(alloc, self.field(place)?)? {
            Some(bytes) => Ok(bytes),
            None => Err(self.wrong("no bytes")),
        }
    }

    /// The bytes of a field whose parts have `+` between, one behind the other, as [`push_part`] reads them.
    pub fn parts(&self, alloc: Global, place: usize) -> Result<Vec<u8>, Wrong> {
        let mut bytes = Vec::new(alloc);
        for part in self.field(place)?.split('+') {
            match push_part(alloc, &mut bytes, part) {
                Ok(()) => {}
                Err(wrong) => return Err(self.wrong(wrong.what)),
            }
        }
        Ok(bytes)
    }
}
