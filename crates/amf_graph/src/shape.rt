ghost use Rattle.std.specs.Prelude.{◌≡◌};
ghost use Rattle.amf_graph.specs.Building.{shape_head, kind_of};

use crate::{NodeKind, TextId, TraitsId, Wrapped};

/// What a node is that takes parts, before it has any.
#[derive(Clone, Copy, Debug, PartialEq, Eq)]
pub enum Shape {
    /// An array: items, and pairs by name (AMF 3, 3.11).
    Array,
    /// An object with these traits (3.12).
    Object(TraitsId),
    /// An instance of an externalizable class, which holds one value (3.12).
    Wrapper(Wrapped),
    /// A vector of values: whether its length is fixed, and the name of its type (3.15).
    Values(bool, TextId),
    /// A dictionary: whether its keys are held weakly (3.16).
    Dictionary(bool),
}

impl Shape {
    pub(crate) fn kind(self) -> NodeKind
        ensures { result ≡ kind_of (shape_head self) }
    {
        match self {
            Shape::Array => NodeKind::Array,
            Shape::Object(_) => NodeKind::Object,
            Shape::Wrapper(_) => NodeKind::Wrapper,
            Shape::Values(..) => NodeKind::Values,
            Shape::Dictionary(_) => NodeKind::Dictionary,
        }
    }
}
