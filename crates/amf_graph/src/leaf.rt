ghost use Rattle.std.specs.Prelude.{◌≡◌, IfOk};
ghost use Rattle.amf_graph.specs.Bounds.{items_of};
ghost use Rattle.amf_graph.specs.Building.{leaf_head, kind_of};
ghost use Rattle.amf_graph.specs.Bodies.{HasRange};

use crate::ranges::{bytes_fit, ints_fit, pattern_fits, patterns_fit, uints_fit};
use crate::{NodeKind, TextId};
use amf_wire::{Memory, Pattern};
use std::alloc::Global;

/// A node without parts (AMF 3, 3.9, 3.10, 3.13 to 3.15). The flag says whether the length is fixed.
#[derive(Debug, Drop)]
pub enum Leaf {
    XmlDocument(TextId),
    Xml(TextId),
    /// Milliseconds since 1970, as a double by its bits.
    Date(Pattern),
    Bytes(Vec<u8>),
    Ints(bool, Vec<i32>),
    Uints(bool, Vec<u32>),
    /// Doubles, each by its bits.
    Doubles(bool, Vec<Pattern>),
}

impl Leaf {
    pub(crate) fn kind(&self) -> NodeKind
        ensures { result ≡ kind_of (leaf_head self.now) }
    {
        match self {
            Leaf::XmlDocument(_) => NodeKind::XmlDocument,
            Leaf::Xml(_) => NodeKind::Xml,
            Leaf::Date(_) => NodeKind::Date,
            Leaf::Bytes(_) => NodeKind::Bytes,
            Leaf::Ints(..) => NodeKind::Ints,
            Leaf::Uints(..) => NodeKind::Uints,
            Leaf::Doubles(..) => NodeKind::Doubles,
        }
    }

    /// How many bytes or items it holds.
    pub(crate) fn len(&self) -> usize
        ensures { result ≡ items_of (leaf_head self.now) }
    {
        match self {
            Leaf::XmlDocument(_) | Leaf::Xml(_) | Leaf::Date(_) => 0,
            Leaf::Bytes(bytes) => bytes.len(),
            Leaf::Ints(_, items) => items.len(),
            Leaf::Uints(_, items) => items.len(),
            Leaf::Doubles(_, items) => items.len(),
        }
    }

    /// Its numbers are ones that their types have.
    pub(crate) fn numbers_fit(&self)
        ensures { HasRange (leaf_head self.now) }
    {
        match self {
            Leaf::XmlDocument(_) | Leaf::Xml(_) => {}
            Leaf::Date(time) => pattern_fits(*time),
            Leaf::Bytes(bytes) => bytes_fit(bytes),
            Leaf::Ints(_, items) => ints_fit(items),
            Leaf::Uints(_, items) => uints_fit(items),
            Leaf::Doubles(_, items) => patterns_fit(items),
        }
    }

    /// The same once more.
    pub(crate) fn copy(&self, alloc: Global) -> Result<Leaf, Memory>
        ensures { IfOk result (λ leaf. leaf_head leaf ≡ leaf_head self.now) }
    {
        Ok(match self {
            Leaf::XmlDocument(text) => Leaf::XmlDocument(*text),
            Leaf::Xml(text) => Leaf::Xml(*text),
            Leaf::Date(time) => Leaf::Date(*time),
            Leaf::Bytes(bytes) => Leaf::Bytes(bytes.to_vec(alloc)?),
            Leaf::Ints(fixed, items) => Leaf::Ints(*fixed, items.to_vec(alloc)?),
            Leaf::Uints(fixed, items) => Leaf::Uints(*fixed, items.to_vec(alloc)?),
            Leaf::Doubles(fixed, items) => Leaf::Doubles(*fixed, items.to_vec(alloc)?),
        })
    }
}
