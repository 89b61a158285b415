use amf_graph::{Rooted, TextId, TraitsId, Value};
use amf_wire::Pattern;

/// A node as it is when it is lowered.
#[derive(Drop)]
pub(crate) enum LoweredNode<'g> {
    /// A node of a graph that is seen as it stands.
    AsItStands(&'g Rooted),
    /// A node of a kind that AMF 0 lacks.
    NoForm,
    Date(Pattern),
    XmlDocument(&'g [u8]),
    Array(Vec<Value>, Vec<(TextId, Value)>),
    /// An object: its sealed members, and behind them the others.
    Object(TraitsId, Vec<(TextId, Value)>),
}
