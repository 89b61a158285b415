//! Gives a node of a builder its parts.

ghost use Rattle.std.specs.Prelude.{◌≡◌, ℕ, ◌<◌, ◌+◌, ◌*◌, length, true, OnOk};
ghost use Rattle.std.specs.List.{AllByRecursion};
ghost use Rattle.amf_graph.specs.Arena.{IsTextId, Names, IsNodeIn};
ghost use Rattle.amf_graph.specs.Bodies.{TakesEntry};
ghost use Rattle.amf_graph.specs.Bounds.{count_end, NodeWithin};
ghost use Rattle.amf_graph.specs.Building.{stored_at, begun, shape_head, changed, size_of, HasRoom};
ghost use Rattle.amf_graph.specs.declared.part.Part.TheVariants.{Named};
ghost use Rattle.amf_sheet.specs.Filling.{more_names, more_values, TakesMore};
ghost use Rattle.amf_sheet.specs.Telling.{told, with_node};

use crate::kept::kept;
use amf_graph::{Builder, NodeId, Part, Shape, TextId, Value};
use amf_wire::Memory;

/// Puts pairs by name.
fn put_names(builder: &mut Builder, node: NodeId, names: &[(TextId, Value)]) -> Result<(), Memory>
    requires there { node.0 < length builder.old.nodes }
    requires opened { (stored_at builder.old node.0).is_open ≡ true }
    requires room { AllByRecursion (λ p. HasRoom builder.old (stored_at builder.old node.0) (Named p.0 p.1)) names.now }
    requires names { AllByRecursion (λ p. IsTextId builder.old p.0.0 × Names builder.old p.1) names.now }
    requires within { size_of (stored_at builder.old node.0) + length names.now < count_end }
    ensures { OnOk result (builder.new ≡ changed (more_names names.now) node.0 builder.old) }
{
    for pair in names {
        kept(builder.put(node, Part::Named(pair.0, pair.1)))?;
    }
    Ok(())
}

/// Puts items.
fn put_items(builder: &mut Builder, node: NodeId, items: &[Value]) -> Result<(), Memory>
    requires there { node.0 < length builder.old.nodes }
    requires opened { (stored_at builder.old node.0).is_open ≡ true }
    requires room { TakesMore builder.old (stored_at builder.old node.0) (length items.now) }
    requires names { AllByRecursion (Names builder.old) items.now }
    requires within { size_of (stored_at builder.old node.0) + length items.now < count_end }
    ensures { OnOk result (builder.new ≡ changed (more_values items.now) node.0 builder.old) }
{
    for item in items {
        kept(builder.put(node, Part::Item(*item)))?;
    }
    Ok(())
}

/// Puts the entries of a dictionary, of which each key and then its value are given.
fn put_entries(builder: &mut Builder, node: NodeId, flat: &[Value]) -> Result<(), Memory>
    requires there { node.0 < length builder.old.nodes }
    requires opened { (stored_at builder.old node.0).is_open ≡ true }
    requires room { TakesEntry (stored_at builder.old node.0).head }
    requires names { AllByRecursion (Names builder.old) flat.now }
    requires pairs { (n : ℕ) × (length flat.now ≡ 2 * n) }
    requires within { size_of (more_values flat.now (stored_at builder.old node.0)) < count_end }
    ensures { OnOk result (builder.new ≡ changed (more_values flat.now) node.0 builder.old) }
{
    for place in 0..flat.len() / 2 {
        let key = flat[2 * place];
        let value = flat[2 * place + 1];
        kept(builder.put(node, Part::Entry(key, value)))?;
    }
    Ok(())
}

/// Gives a node that is begun its names and values, and closes it.
pub(crate) fn fill(
    builder: &mut Builder,
    node: NodeId,
    shape: Shape,
    names: &[(TextId, Value)],
    values: &[Value],
) -> Result<(), Memory>
    requires there { node.0 < length builder.old.nodes }
    requires begun { stored_at builder.old node.0 ≡ begun (shape_head shape) }
    requires sound { IsNodeIn builder.old (told shape names.now values.now) }
    requires within { NodeWithin (told shape names.now values.now) }
    ensures { OnOk result (builder.new ≡ with_node node.0 (told shape names.now values.now) builder.old) }
{
    put_names(builder, node, names)?;
    match shape {
        Shape::Dictionary(_) => put_entries(builder, node, values)?,
        _ => put_items(builder, node, values)?,
    }
    builder.close_node(node);
    Ok(())
}
