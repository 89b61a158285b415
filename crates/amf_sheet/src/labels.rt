//! Nodes that are named before their numbers are known.

ghost use Rattle.std.specs.Prelude.{◌≡◌, map};
ghost use Rattle.amf_sheet.specs.Labels.{number_for, linked};

use amf_graph::{NodeId, TextId, Value};

/// A node's number from here on is a label: the first one is this number, the second one the next, and so on (2^28, which is no
/// number of a node).
pub const FIRST_LABEL: u32 = 268_435_456;

/// The number that a node's number or label stands for.
fn number_for(labels: &[NodeId], node: NodeId) -> NodeId
    ensures { result ≡ number_for labels.now node }
{
    if node.0 < FIRST_LABEL {
        return node;
    }
    let place = (node.0 - FIRST_LABEL) as usize;
    if place < labels.len() {
        labels[place]
    } else {
        NodeId(0)
    }
}

/// The value, where a label of a node is put for its number: that which stands in the label's place, or 0 where none does.
pub fn linked_value(labels: &[NodeId], value: Value) -> Value
    ensures { result ≡ linked labels.now value }
{
    match value {
        Value::Node(node) => Value::Node(number_for(labels, node)),
        value => value,
    }
}

/// Puts numbers in place of labels.
pub(crate) fn link_values(labels: &[NodeId], values: &mut [Value])
    ensures { values.new ≡ map (linked labels.now) values.old }
{
    for value in values.iter_mut() {
        *value = linked_value(labels, *value);
    }
}

/// Puts numbers in place of labels.
pub(crate) fn link_names(labels: &[NodeId], names: &mut [(TextId, Value)])
    ensures { names.new ≡ map (λ p. (p.0, linked labels.now p.1)) names.old }
{
    for pair in names.iter_mut() {
        pair.1 = linked_value(labels, pair.1);
    }
}
