use crate::{TextId, Value};

/// A part of a node.
#[derive(Clone, Copy, Debug, PartialEq, Eq)]
pub enum Part {
    /// An item, a sealed value or the wrapped value.
    Item(Value),
    /// A named pair of an array, or a dynamic member of an object.
    Named(TextId, Value),
    /// A key of a dictionary and its value.
    Entry(Value, Value),
}
