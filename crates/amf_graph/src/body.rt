ghost use Rattle.std.specs.Prelude.{◌≡◌, IfOk};
ghost use Rattle.std.specs.List.{AllByRecursion};
ghost use Rattle.amf_graph.specs.Bodies.{body_head, body_names, body_values};
ghost use Rattle.amf_graph.specs.Building.{kind_of};
ghost use Rattle.amf_graph.specs.Held.{held_head, held_names, held_values};
ghost use Rattle.amf_graph.specs.Renumbered.{renumbered_names, renumbered_values, number_in, HasNumber};

use crate::held::{Form, Held};
use crate::renumber::{renumbered_entries, renumbered_pairs, renumbered_values};
use crate::{Leaf, NodeKind, TextId, Value};
use amf_wire::Memory;
use std::alloc::Global;

/// What a node is and holds, with lists of its own.
#[derive(Drop)]
pub(crate) enum Body<'a> {
    Leaf(Leaf),
    /// A byte array that is still to be copied: a short one needs no list.
    Bytes(&'a [u8]),
    /// Values and pairs.
    Parts(Form, Vec<Value>, Vec<(TextId, Value)>),
    /// The entries of a dictionary, and whether its keys are held weakly.
    Dictionary(bool, Vec<(Value, Value)>),
}

impl Body<'_> {
    pub(crate) fn kind(&self) -> NodeKind
        ensures { result ≡ kind_of (body_head self.now) }
    {
        match self {
            Body::Leaf(leaf) => leaf.kind(),
            Body::Bytes(_) => NodeKind::Bytes,
            Body::Parts(form, ..) => form.kind(),
            Body::Dictionary(..) => NodeKind::Dictionary,
        }
    }
}

/// A copy of what a node is and holds, each node in it under its number.
pub(crate) fn renumbered_body<'a>(
    alloc: Global,
    held: Held<'a>,
    numbers: &[u32],
) -> Result<Body<'a>, Memory>
    requires names { AllByRecursion (λ p. HasNumber numbers.now p.1) (held_names held) }
    requires values { AllByRecursion (HasNumber numbers.now) (held_values held) }
    ensures head { IfOk result (λ body. body_head body ≡ held_head held.entry) }
    ensures names { IfOk result (λ body. body_names body ≡ renumbered_names (number_in numbers.now) (held_names held.entry)) }
    ensures values { IfOk result (λ body. body_values body ≡ renumbered_values (number_in numbers.now) (held_values held.entry)) }
{
    Ok(match held {
        Held::Leaf(leaf) => Body::Leaf(leaf.copy(alloc)?),
        Held::Bytes(bytes) => Body::Bytes(bytes),
        Held::Parts(form, values, names) => {
            let values = renumbered_values(alloc, values, numbers)?;
            Body::Parts(form, values, renumbered_pairs(alloc, names, numbers)?)
        }
        Held::Dictionary(weak, entries) => {
            Body::Dictionary(weak, renumbered_entries(alloc, entries, numbers)?)
        }
    })
}
