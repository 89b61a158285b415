ghost use Rattle.std.specs.Prelude.{◌≡◌, ◌<◌, length, IfOk, OnOk};
ghost use Rattle.amf_graph.specs.Order.{IsOrder};
ghost use Rattle.amf_graph.specs.Rooted.{content};
ghost use Rattle.amf_show.specs.Heads.{texts_of, IsTextOf, AreTexts};
ghost use Rattle.amf_show.specs.Joining.{head_before, heads_from, object_opening};
ghost use Rattle.amf_tables.specs.ShownTraits.{AreTextIds, texts_at};

use crate::contents::push_worded;
use crate::numbers::{push_separator, push_word};
use crate::piece::Piece;
use crate::text::push_text;
use amf_graph::{NodeId, NodeView, Rooted, TextId, TraitsId};
use amf_iso::Numbering;
use amf_wire::Memory;
use std::alloc::Global;

/// How many classes have their texts ready at most.
const MOST: usize = 8;

/// Among how many nodes, from the first on, these classes are looked for. A graph of fewer nodes has none ready.
const LOOKED_AT: u32 = 64;

/// What the objects of a class have in common in a listing.
#[derive(Drop)]
pub(crate) struct ClassText {
    pub(crate) traits: TraitsId,
    /// An object up to the brace before its first member.
    pub(crate) opening: Piece,
    /// What stands before the value of each sealed member.
    pub(crate) heads: Vec<Piece>,
    pub(crate) dynamic: bool,
}

/// What stands before the value of the member at a place.
fn head(alloc: Global, place: usize, name: &[u8]) -> Result<Vec<u8>, Memory>
    ensures { IfOk result (λ head. head.items ≡ head_before place name.now) }
{
    let mut head = Vec::new(alloc);
    push_separator(place, &mut head)?;
    push_text(name, &mut head)?;
    push_word(b"=", &mut head)?;
    Ok(head)
}

/// What stands before the value of each member.
fn heads(alloc: Global, graph: &Rooted, names: &[TextId]) -> Result<Vec<Piece>, Memory>
    requires { AreTextIds graph.now.arena names.now }
    ensures { IfOk result (λ heads. texts_of heads.items ≡ heads_from 0 (texts_at graph.now.arena names.now)) }
{
    let mut heads = Vec::new(alloc);
    for (place, name) in names.iter().enumerate() {
        let made = head(alloc, place, graph.text(*name))?;
        let piece = Piece::of(made);
        heads.push(piece)?;
    }
    Ok(heads)
}

/// An object of a class up to the brace before its first member.
fn opening(alloc: Global, class: &[u8]) -> Result<Vec<u8>, Memory>
    ensures { IfOk result (λ opening. opening.items ≡ object_opening class.now) }
{
    let mut opening = Vec::new(alloc);
    push_worded(b"object ", class, &mut opening)?;
    push_word(b" sealed ", &mut opening)?;
    push_word(b"{", &mut opening)?;
    Ok(opening)
}

impl ClassText {
    /// That of these traits.
    fn of(alloc: Global, graph: &Rooted, traits: TraitsId) -> Result<ClassText, Memory>
        requires { traits.0 < length graph.now.arena.traits }
        ensures { IfOk result (λ class. IsTextOf graph.now.arena class.traits.0 class) }
    {
        graph.is_finished();
        let class = graph.traits(traits);
        let front = opening(alloc, graph.text(class.class))?;
        let before = heads(alloc, graph, class.sealed)?;
        Ok(ClassText {
            traits,
            opening: Piece::of(front),
            heads: before,
            dynamic: class.dynamic,
        })
    }
}

/// Adds the text of a class, if it has none yet and there is a place for it.
fn push_class(
    alloc: Global,
    graph: &Rooted,
    traits: TraitsId,
    classes: &mut Vec<ClassText>,
) -> Result<(), Memory>
    requires traits { traits.0 < length graph.now.arena.traits }
    requires texts { AreTexts graph.now.arena classes.old.items }
    ensures { OnOk result (AreTexts graph.now.arena classes.new.items) }
{
    if classes.len() >= MOST || classes.iter().any(|class| class.traits == traits) {
        return Ok(());
    }
    let class = ClassText::of(alloc, graph, traits)?;
    classes.push(class)?;
    Ok(())
}

/// Adds the text of the class of a node that is an object.
fn push_class_of(
    alloc: Global,
    graph: &Rooted,
    node: NodeId,
    classes: &mut Vec<ClassText>,
) -> Result<(), Memory>
    requires node { node.0 < length graph.now.arena.nodes }
    requires texts { AreTexts graph.now.arena classes.old.items }
    ensures { OnOk result (AreTexts graph.now.arena classes.new.items) }
{
    graph.is_finished();
    match graph.node(node) {
        NodeView::Object { traits, .. } => push_class(alloc, graph, traits, classes),
        _ => Ok(()),
    }
}

/// The texts of the classes of the first objects of a graph.
pub(crate) fn class_texts(
    alloc: Global,
    graph: &Rooted,
    numbering: &Numbering,
) -> Result<Vec<ClassText>, Memory>
    requires { IsOrder (content graph.now) numbering.now }
    ensures { IfOk result (λ classes. AreTexts graph.now.arena classes.items) }
{
    let mut classes = Vec::new(alloc);
    if numbering.count() < LOOKED_AT {
        return Ok(classes);
    }
    for number in 0..LOOKED_AT {
        push_class_of(alloc, graph, numbering.node_at(number), &mut classes)?;
    }
    Ok(classes)
}
