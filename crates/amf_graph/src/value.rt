use amf_wire::Pattern;

/// A node of a graph, by its place.
#[derive(Clone, Copy, Debug, PartialEq, Eq)]
pub struct NodeId(pub u32);

/// A text of a graph, by its place.
#[derive(Clone, Copy, Debug, PartialEq, Eq)]
pub struct TextId(pub u32);

/// A traits of a graph, by its place.
#[derive(Clone, Copy, Debug, PartialEq, Eq)]
pub struct TraitsId(pub u32);

/// A value: one that stands for itself, a text, or a node of the graph.
#[derive(Clone, Copy, Debug, PartialEq, Eq)]
pub enum Value {
    Undefined,
    Null,
    Bool(bool),
    /// An integer from -2^28 to 2^28-1.
    Integer(i32),
    /// A double, by its bits.
    Double(Pattern),
    Text(TextId),
    Node(NodeId),
}
