//! What a node is and holds, as it is read.

ghost use Rattle.std.specs.Prelude.{◌≡◌};
ghost use Rattle.amf_graph.specs.Building.{kind_of};
ghost use Rattle.amf_graph.specs.Held.{form_head, held_head};

use crate::{Leaf, NodeKind, TextId, TraitsId, Value, Wrapped};

/// What a node is that has values and pairs.
#[derive(Clone, Copy)]
pub(crate) enum Form {
    Array,
    Object(TraitsId),
    Wrapper(Wrapped),
    /// A vector of values: whether its length is fixed, and the name of its type.
    Values(bool, TextId),
}

/// What a node is and holds.
#[derive(Clone, Copy)]
pub(crate) enum Held<'a> {
    Leaf(&'a Leaf),
    /// A byte array that has no list of its own.
    Bytes(&'a [u8]),
    /// Values and pairs.
    Parts(Form, &'a [Value], &'a [(TextId, Value)]),
    /// The entries of a dictionary, and whether its keys are held weakly.
    Dictionary(bool, &'a [(Value, Value)]),
}

impl Form {
    pub(crate) fn kind(self) -> NodeKind
        ensures { result ≡ kind_of (form_head self) }
    {
        match self {
            Form::Array => NodeKind::Array,
            Form::Object(_) => NodeKind::Object,
            Form::Wrapper(_) => NodeKind::Wrapper,
            Form::Values(..) => NodeKind::Values,
        }
    }
}

impl Held<'_> {
    pub(crate) fn kind(self) -> NodeKind
        ensures { result ≡ kind_of (held_head self.entry) }
    {
        match self {
            Held::Leaf(leaf) => leaf.kind(),
            Held::Bytes(_) => NodeKind::Bytes,
            Held::Parts(form, ..) => form.kind(),
            Held::Dictionary(..) => NodeKind::Dictionary,
        }
    }
}
