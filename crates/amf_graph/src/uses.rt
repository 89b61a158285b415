//! The texts and traits that nodes and values use.

ghost use Rattle.std.specs.Prelude.{◌≡◌, ◌<◌, ◌++◌, [], false, length, get_or, IfOk, OnOk};
ghost use Rattle.std.specs.List.{AllByRecursion};
ghost use Rattle.amf_graph.specs.Arena.{Names, no_traits};
ghost use Rattle.amf_graph.specs.Building.{stored_at, leaf_head};
ghost use Rattle.amf_graph.specs.Gather.{placed, texts_used, with_all, text_in, texts_in, pair_texts, head_texts, node_texts, traits_texts, head_traits, texts_of_nodes, texts_of_traits, traits_of_nodes};
ghost use Rattle.amf_graph.specs.Held.{form_head, held_head, held_node};
ghost use Rattle.amf_graph.specs.Views.{named, flat};

use crate::held::{Form, Held};
use crate::number_set::NumberSet;
use crate::{Leaf, NodeId, Rooted, TextId, TraitsId, Value};
use amf_wire::Memory;
use std::alloc::Global;

/// Appends the text of a value that is one.
fn push_text(value: Value, texts: &mut Vec<u32>) -> Result<(), Memory>
    ensures { OnOk result (texts.new.items ≡ texts.old.items ++ text_in value) }
{
    if let Value::Text(text) = value {
        texts.push(text.0)?;
    }
    Ok(())
}

/// Appends the texts among the values.
fn push_texts(values: &[Value], texts: &mut Vec<u32>) -> Result<(), Memory>
    ensures { OnOk result (texts.new.items ≡ texts.old.items ++ texts_in values.now) }
{
    for value in values {
        push_text(*value, texts)?;
    }
    Ok(())
}

/// Appends the names of pairs, and the texts among their values.
fn push_pair_texts(pairs: &[(TextId, Value)], texts: &mut Vec<u32>) -> Result<(), Memory>
    ensures { OnOk result (texts.new.items ≡ texts.old.items ++ pair_texts (named pairs.now)) }
{
    for (name, value) in pairs {
        texts.push(name.0)?;
        push_text(*value, texts)?;
    }
    Ok(())
}

/// Appends the texts among keys and values.
fn push_entry_texts(entries: &[(Value, Value)], texts: &mut Vec<u32>) -> Result<(), Memory>
    ensures { OnOk result (texts.new.items ≡ texts.old.items ++ texts_in (flat entries.now)) }
{
    for (key, value) in entries {
        push_text(*key, texts)?;
        push_text(*value, texts)?;
    }
    Ok(())
}

/// Appends the text that a node without parts has.
fn push_leaf_text(leaf: &Leaf, texts: &mut Vec<u32>) -> Result<(), Memory>
    ensures { OnOk result (texts.new.items ≡ texts.old.items ++ head_texts (leaf_head leaf.now)) }
{
    match leaf {
        Leaf::XmlDocument(text) | Leaf::Xml(text) => texts.push(text.0)?,
        _ => {}
    }
    Ok(())
}

/// Appends the text that a form has.
fn push_form_text(form: Form, texts: &mut Vec<u32>) -> Result<(), Memory>
    ensures { OnOk result (texts.new.items ≡ texts.old.items ++ head_texts (form_head form)) }
{
    if let Form::Values(_, of) = form {
        texts.push(of.0)?;
    }
    Ok(())
}

/// Appends the texts that a node uses itself.
fn push_node_texts(held: Held<'_>, texts: &mut Vec<u32>) -> Result<(), Memory>
    ensures { OnOk result (texts.new.items ≡ texts.old.items ++ node_texts (held_node false held.entry)) }
{
    match held {
        Held::Leaf(leaf) => push_leaf_text(leaf, texts)?,
        Held::Bytes(_) => {}
        Held::Parts(form, values, names) => {
            push_form_text(form, texts)?;
            push_texts(values, texts)?;
            push_pair_texts(names, texts)?;
        }
        Held::Dictionary(_, entries) => push_entry_texts(entries, texts)?,
    }
    Ok(())
}

/// Appends the texts that the nodes use themselves.
fn push_texts_of_nodes(
    graph: &Rooted,
    nodes: &NumberSet,
    texts: &mut Vec<u32>,
) -> Result<(), Memory>
    requires { nodes.now.count ≡ length graph.now.arena.nodes }
    ensures texts { OnOk result (texts.new.items ≡ texts.old.items ++ texts_of_nodes graph.now.arena nodes.now.items) }
    ensures below { AllByRecursion (λ i. i < nodes.now.count) nodes.now.items }
{
    for place in 0..nodes.len() {
        push_node_texts(graph.held(NodeId(nodes.at(place))), texts)?;
    }
    Ok(())
}

/// Appends the texts of a class: its name, and those of its sealed members.
fn push_traits_texts(graph: &Rooted, traits: TraitsId, texts: &mut Vec<u32>) -> Result<(), Memory>
    requires { traits.0 < length graph.now.arena.traits }
    ensures { OnOk result (texts.new.items ≡ texts.old.items ++ traits_texts (get_or graph.now.arena.traits traits.0 no_traits)) }
{
    let class = graph.traits(traits);
    let sealed = class.sealed;
    texts.push(class.class.0)?;
    for name in sealed {
        texts.push(name.0)?;
    }
    Ok(())
}

/// Appends the texts of the classes.
fn push_texts_of_traits(
    graph: &Rooted,
    traits: &NumberSet,
    texts: &mut Vec<u32>,
) -> Result<(), Memory>
    requires { traits.now.count ≡ length graph.now.arena.traits }
    ensures texts { OnOk result (texts.new.items ≡ texts.old.items ++ texts_of_traits graph.now.arena traits.now.items) }
    ensures below { AllByRecursion (λ i. i < traits.now.count) traits.now.items }
{
    for place in 0..traits.len() {
        push_traits_texts(graph, TraitsId(traits.at(place)), texts)?;
    }
    Ok(())
}

/// Appends the traits of an object.
fn push_traits(held: Held<'_>, traits: &mut Vec<u32>) -> Result<(), Memory>
    ensures { OnOk result (traits.new.items ≡ traits.old.items ++ head_traits (held_head held.entry)) }
{
    if let Held::Parts(Form::Object(of), ..) = held {
        traits.push(of.0)?;
    }
    Ok(())
}

/// The traits of the objects among the nodes. It gives up where there is no memory.
pub(crate) fn used_traits(
    alloc: Global,
    graph: &Rooted,
    nodes: &NumberSet,
) -> Result<NumberSet, Memory>
    requires { nodes.now.count ≡ length graph.now.arena.nodes }
    ensures { IfOk result (λ traits. traits ≡ placed (length graph.now.arena.traits) (with_all (traits_of_nodes graph.now.arena nodes.now.items) [])) }
{
    graph.is_finished();
    let mut used = Vec::new(alloc);
    for place in 0..nodes.len() {
        push_traits(graph.held(NodeId(nodes.at(place))), &mut used)?;
    }
    NumberSet::of(alloc, graph.traits_count(), &used)
}

/// The texts that the values, the nodes and the traits use. It gives up where there is no memory.
pub(crate) fn used_texts(
    alloc: Global,
    graph: &Rooted,
    values: &[Value],
    nodes: &NumberSet,
    traits: &NumberSet,
) -> Result<NumberSet, Memory>
    requires values { AllByRecursion (Names graph.now.arena) values.now }
    requires nodes { nodes.now.count ≡ length graph.now.arena.nodes }
    requires traits { traits.now.count ≡ length graph.now.arena.traits }
    ensures { IfOk result (λ texts. texts ≡ texts_used graph.now.arena values.now nodes.now.items traits.now.items) }
{
    graph.is_finished();
    let mut used = Vec::new(alloc);
    push_texts(values, &mut used)?;
    push_texts_of_nodes(graph, nodes, &mut used)?;
    push_texts_of_traits(graph, traits, &mut used)?;
    NumberSet::of(alloc, graph.text_count(), &used)
}
