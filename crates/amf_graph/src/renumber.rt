ghost use Rattle.std.specs.Prelude.{◌≡◌, ℕ, ◌<◌, length, IfOk};
ghost use Rattle.std.specs.List.{AllByRecursion};
ghost use Rattle.amf_graph.specs.Order.{IsDistinct};
ghost use Rattle.amf_graph.specs.Views.{named, flat};
ghost use Rattle.amf_graph.specs.Renumbered.{numbers_of, place_of, renumbered_value, renumbered_values, renumbered_names, number_in, HasNumber};
ghost use Rattle.amf_graph.specs.Bounds.{count_end};

use crate::{NodeId, TextId, Value};
use amf_wire::Memory;
use std::alloc::Global;

/// For each of so many nodes its place in the order, or how long the order is where it is not there.
pub(crate) fn places_by_node(
    alloc: Global,
    order: &[NodeId],
    count: usize,
) -> Result<Vec<u32>, Memory>
    requires distinct { IsDistinct (numbers_of order.now) }
    requires there { AllByRecursion (λ i. i < count) (numbers_of order.now) }
    requires few { count < count_end }
    ensures count { IfOk result (λ numbers. length numbers.items ≡ count) }
    ensures places { IfOk result (λ numbers. (i : ℕ) → i < count → number_in numbers.items i ≡ place_of (numbers_of order.now) i) }
{
    let mut numbers = vec![in alloc; order.len() as u32; count]?;
    for (place, node) in order.iter().enumerate() {
        numbers[node.0 as usize] = place as u32;
    }
    Ok(numbers)
}

/// The value, a node under its number.
pub(crate) fn renumbered(value: Value, numbers: &[u32]) -> Value
    requires { HasNumber numbers.now value }
    ensures { result ≡ renumbered_value (number_in numbers.now) value }
{
    match value {
        Value::Node(node) => Value::Node(NodeId(numbers[node.0 as usize])),
        _ => value,
    }
}

/// A copy of the values, each node under its number.
pub(crate) fn renumbered_values(
    alloc: Global,
    values: &[Value],
    numbers: &[u32],
) -> Result<Vec<Value>, Memory>
    requires { AllByRecursion (HasNumber numbers.now) values.now }
    ensures { IfOk result (λ copies. copies.items ≡ renumbered_values (number_in numbers.now) values.now) }
{
    let mut copies = Vec::new(alloc);
    for value in values {
        copies.push(renumbered(*value, numbers))?;
    }
    Ok(copies)
}

/// A copy of the pairs, each node under its number.
pub(crate) fn renumbered_pairs(
    alloc: Global,
    pairs: &[(TextId, Value)],
    numbers: &[u32],
) -> Result<Vec<(TextId, Value)>, Memory>
    requires { AllByRecursion (λ p. HasNumber numbers.now p.1) (named pairs.now) }
    ensures { IfOk result (λ copies. named copies.items ≡ renumbered_names (number_in numbers.now) (named pairs.now)) }
{
    let mut copies = Vec::new(alloc);
    for (name, value) in pairs {
        copies.push((*name, renumbered(*value, numbers)))?;
    }
    Ok(copies)
}

/// A copy of the entries, each node under its number.
pub(crate) fn renumbered_entries(
    alloc: Global,
    entries: &[(Value, Value)],
    numbers: &[u32],
) -> Result<Vec<(Value, Value)>, Memory>
    requires { AllByRecursion (HasNumber numbers.now) (flat entries.now) }
    ensures { IfOk result (λ copies. flat copies.items ≡ renumbered_values (number_in numbers.now) (flat entries.now)) }
{
    let mut copies = Vec::new(alloc);
    for (key, value) in entries {
        let entry = (renumbered(*key, numbers), renumbered(*value, numbers));
        copies.push(entry)?;
    }
    Ok(copies)
}
