ghost use Rattle.std.specs.Prelude.{◌≡◌};
ghost use Rattle.amf_graph.specs.Arena.{Arena, StoredNode};
ghost use Rattle.amf_graph.specs.Building.{kind_of};
ghost use Rattle.amf_graph.specs.Views.{Shows};

use crate::{NodeKind, TextId, TraitsId, Value, Wrapped};
use amf_wire::Pattern;

/// A complete node, as a graph shows it.
#[derive(Clone, Copy)]
pub enum NodeView<'a> {
    XmlDocument(&'a [u8]),
    Xml(&'a [u8]),
    /// Milliseconds since 1970, as a double by its bits.
    Date(Pattern),
    Bytes(&'a [u8]),
    Ints {
        fixed: bool,
        items: &'a [i32],
    },
    Uints {
        fixed: bool,
        items: &'a [u32],
    },
    Doubles {
        fixed: bool,
        items: &'a [Pattern],
    },
    Array {
        items: &'a [Value],
        names: &'a [(TextId, Value)],
    },
    /// The sealed values are in the order of the sealed names.
    Object {
        traits: TraitsId,
        sealed: &'a [Value],
        members: &'a [(TextId, Value)],
    },
    Wrapper {
        class: Wrapped,
        value: Value,
    },
    /// A vector of values, with the name of its type.
    Values {
        fixed: bool,
        of: TextId,
        items: &'a [Value],
    },
    /// Keys, each with its value.
    Dictionary {
        weak: bool,
        entries: &'a [(Value, Value)],
    },
}

impl NodeView<'_> {
    /// The kind of the node.
    pub fn kind(self) -> NodeKind
        ensures { (a : Arena) (n : StoredNode) → Shows a n self.entry → result ≡ kind_of n.head }
    {
        match self {
            NodeView::XmlDocument(_) => NodeKind::XmlDocument,
            NodeView::Xml(_) => NodeKind::Xml,
            NodeView::Date(_) => NodeKind::Date,
            NodeView::Bytes(_) => NodeKind::Bytes,
            NodeView::Ints { .. } => NodeKind::Ints,
            NodeView::Uints { .. } => NodeKind::Uints,
            NodeView::Doubles { .. } => NodeKind::Doubles,
            NodeView::Array { .. } => NodeKind::Array,
            NodeView::Object { .. } => NodeKind::Object,
            NodeView::Wrapper { .. } => NodeKind::Wrapper,
            NodeView::Values { .. } => NodeKind::Values,
            NodeView::Dictionary { .. } => NodeKind::Dictionary,
        }
    }
}

/// A class, as a graph shows it.
#[derive(Clone, Copy)]
pub struct TraitsView<'a> {
    pub class: TextId,
    /// Whether its objects may have further members.
    pub dynamic: bool,
    /// The names of its sealed members.
    pub sealed: &'a [TextId],
}
