/// Why a format has no spelling of a graph. At one node the first kind of this list is told.
#[derive(Clone, Copy, Debug, PartialEq, Eq)]
pub enum LackKind {
    /// A dynamic member or an array's name is empty.
    EmptyName,
    /// The format has no such kind of node.
    NoForm,
    /// A name is longer than the format's length field can say.
    LongName,
    /// The node is reached again, and the format cannot name it.
    Shared,
    /// The node is reached again, and its index is past those that the format can name.
    FarReference,
    /// The file is longer than its length field can say.
    LongFile,
}

/// Why a format has no spelling of a graph, and where: the least node that has none.
#[derive(Clone, Copy, Debug, PartialEq, Eq)]
pub struct Lack {
    pub kind: LackKind,
    /// The canonical number of the node, from 0.
    pub node: u32,
}
