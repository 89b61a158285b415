//! Tells each node of a page.

ghost use Rattle.std.specs.Prelude.{◌≡◌, ◌<◌, [], ◌∷◌, length, map, IfOk, OnOk};
ghost use Rattle.std.specs.List.{AllByRecursion};
ghost use Rattle.amf_graph.specs.Arena.{IsTextId};
ghost use Rattle.amf_graph.specs.Graph as graph;
ghost use Rattle.amf_text.specs.Meant.{open_class};
ghost use Rattle.amf_text.specs.WholeLaws.{IsSoundNode};
ghost use Rattle.amf_text_trees.specs.Frames.{kept, object_kept};
ghost use Rattle.amf_text_trees.specs.Pages.{node_of};
ghost use Rattle.amf_text_pages.specs.Entries.{entry_of, entries_of, pairs_of, texts_of};
ghost use Rattle.amf_text_graphs.specs.Objects.{AreSound, ShapeTold, IsSoundClass, ObjectTold, ordered_kept};
ghost use Rattle.amf_text_pages.specs.Pages.{class_of, kept_of};
ghost use Rattle.amf_text_graphs.specs.Telling.{NodeTold};

use crate::book::Book;
use crate::leaves::{tell_doubles, tell_xml, tell_xml_document};
use crate::names::{class, names};
use crate::ordered::ordered;
use crate::parts::tell_parts;
use crate::rows::Rows;
use crate::values::pairs;
use amf_graph::{Leaf, NodeId, Shape, TextId, Value, Wrapped};
use amf_text_pages::{Class, Entry, Node};
use amf_wire::{Memory, Pattern};
use std::alloc::Global;
use std::hash::RandomState;

/// Tells a node that is no object and takes parts.
fn tell_shape(
    alloc: Global,
    book: &mut Book,
    rows: &Rows,
    id: NodeId,
    shape: Shape,
    names: Vec<(Vec<u8>, Entry)>,
    items: Vec<Entry>,
) -> Result<(), Memory>
    requires there { id.0 < length book.old.nodes }
    requires sound { AreSound rows.now (length book.old.nodes) (pairs_of names) (entries_of items) }
    ensures { OnOk result (ShapeTold rows.now book.old book.new id.0 shape (pairs_of names) (entries_of items)) }
{
    tell_parts(alloc, book, rows, id, shape, &names, &items)
}

/// Tells an array.
fn tell_array(
    alloc: Global,
    book: &mut Book,
    rows: &Rows,
    id: NodeId,
    names: Vec<(Vec<u8>, Entry)>,
    items: Vec<Entry>,
) -> Result<(), Memory>
    requires there { id.0 < length book.old.nodes }
    requires sound { IsSoundNode (length book.old.nodes) (node_of rows.now (kept graph.array (pairs_of names) (entries_of items))) }
    ensures { OnOk result (NodeTold rows.now book.old book.new id.0 (kept graph.array (pairs_of names) (entries_of items))) }
{
    tell_shape(alloc, book, rows, id, Shape::Array, names, items)
}

/// Tells an instance of an externalizable class.
fn tell_wrapper(
    alloc: Global,
    book: &mut Book,
    rows: &Rows,
    id: NodeId,
    class: Wrapped,
    item: Entry,
) -> Result<(), Memory>
    requires there { id.0 < length book.old.nodes }
    requires sound { IsSoundNode (length book.old.nodes) (node_of rows.now (kept (graph.wrapper class) [] (entry_of item ∷ []))) }
    ensures { OnOk result (NodeTold rows.now book.old book.new id.0 (kept (graph.wrapper class) [] (entry_of item ∷ []))) }
{
    let mut items = Vec::new(alloc);
    items.push(item)?;
    tell_shape(
        alloc,
        book,
        rows,
        id,
        Shape::Wrapper(class),
        Vec::new(alloc),
        items,
    )
}

/// Tells a vector of values of a type.
fn tell_values(
    alloc: Global,
    book: &mut Book,
    rows: &Rows,
    id: NodeId,
    fixed: bool,
    of: Vec<u8>,
    items: Vec<Entry>,
) -> Result<(), Memory>
    requires there { id.0 < length book.old.nodes }
    requires sound { IsSoundNode (length book.old.nodes) (node_of rows.now (kept (graph.values fixed of.items) [] (entries_of items))) }
    ensures { OnOk result (NodeTold rows.now book.old book.new id.0 (kept (graph.values fixed of.items) [] (entries_of items))) }
{
    let of = book.text(&of)?;
    tell_shape(
        alloc,
        book,
        rows,
        id,
        Shape::Values(fixed, of),
        Vec::new(alloc),
        items,
    )
}

/// Tells a dictionary, of which each key stands before its value.
fn tell_dictionary(
    alloc: Global,
    book: &mut Book,
    rows: &Rows,
    id: NodeId,
    weak: bool,
    items: Vec<Entry>,
) -> Result<(), Memory>
    requires there { id.0 < length book.old.nodes }
    requires sound { IsSoundNode (length book.old.nodes) (node_of rows.now (kept (graph.dictionary weak) [] (entries_of items))) }
    ensures { OnOk result (NodeTold rows.now book.old book.new id.0 (kept (graph.dictionary weak) [] (entries_of items))) }
{
    tell_shape(
        alloc,
        book,
        rows,
        id,
        Shape::Dictionary(weak),
        Vec::new(alloc),
        items,
    )
}

/// Tells an object whose sealed names and values are in the book.
fn tell_object(
    alloc: Global,
    book: &mut Book,
    rows: &Rows,
    id: NodeId,
    of: Class,
    sealed: &[TextId],
    values: &[Value],
) -> Result<(), Memory>
    requires there { id.0 < length book.old.nodes }
    requires sound { IsSoundClass rows.now (length book.old.nodes) (class_of of) }
    requires sealed { AllByRecursion (IsTextId book.old) (map (λ t. t.0) sealed.now) }
    ensures { OnOk result (ObjectTold rows.now book.old book.new id.0 (class_of of) sealed.now values.now) }
{
    let traits = class(book, &of.name, of.dynamic, sealed)?;
    let members = pairs(alloc, book, rows, &of.members)?;
    book.tell(id, Shape::Object(traits), &members, values)
}

/// Tells a dynamic object without class and sealed names.
fn tell_open(
    alloc: Global,
    book: &mut Book,
    rows: &Rows,
    id: NodeId,
    members: Vec<(Vec<u8>, Entry)>,
) -> Result<(), Memory>
    requires there { id.0 < length book.old.nodes }
    requires sound { IsSoundNode (length book.old.nodes) (node_of rows.now (kept (graph.object open_class) (pairs_of members) [])) }
    ensures { OnOk result (NodeTold rows.now book.old book.new id.0 (kept (graph.object open_class) (pairs_of members) [])) }
{
    let of = Class {
        name: Vec::new(alloc),
        dynamic: true,
        members,
    };
    tell_object(alloc, book, rows, id, of, &[], &[])
}

/// The names of pairs.
fn firsts(alloc: Global, pairs: &[(TextId, Value)]) -> Result<Vec<TextId>, Memory>
    ensures { IfOk result (λ names. names.items ≡ map (λ p. p.0) pairs.now) }
{
    let mut names = Vec::new(alloc);
    for pair in pairs {
        names.push(pair.0)?;
    }
    Ok(names)
}

/// The values of pairs.
fn seconds(alloc: Global, pairs: &[(TextId, Value)]) -> Result<Vec<Value>, Memory>
    ensures { IfOk result (λ values. values.items ≡ map (λ p. p.1) pairs.now) }
{
    let mut values = Vec::new(alloc);
    for pair in pairs {
        values.push(pair.1)?;
    }
    Ok(values)
}

/// Tells an object whose sealed members stand in the order of its class.
fn tell_sealed(
    alloc: Global,
    book: &mut Book,
    rows: &Rows,
    id: NodeId,
    of: Class,
    sealed: Vec<(Vec<u8>, Entry)>,
) -> Result<(), Memory>
    requires there { id.0 < length book.old.nodes }
    requires sound { IsSoundNode (length book.old.nodes) (node_of rows.now (object_kept (class_of of) (pairs_of sealed))) }
    ensures { OnOk result (NodeTold rows.now book.old book.new id.0 (object_kept (class_of of) (pairs_of sealed))) }
{
    let told = pairs(alloc, book, rows, &sealed)?;
    let names = firsts(alloc, &told)?;
    let values = seconds(alloc, &told)?;
    tell_object(alloc, book, rows, id, of, &names, &values)
}

/// Tells an object whose sealed members stand in any order.
fn tell_ordered(
    alloc: Global,
    keys: Option<RandomState>,
    book: &mut Book,
    rows: &Rows,
    id: NodeId,
    of: Class,
    order: Vec<Vec<u8>>,
    sealed: Vec<(Vec<u8>, Entry)>,
) -> Result<(), Memory>
    requires there { id.0 < length book.old.nodes }
    requires sound { IsSoundNode (length book.old.nodes) (node_of rows.now (ordered_kept (class_of of) (texts_of order) (pairs_of sealed))) }
    ensures { OnOk result (NodeTold rows.now book.old book.new id.0 (ordered_kept (class_of of) (texts_of order) (pairs_of sealed))) }
{
    let names = names(alloc, book, &order)?;
    let values = ordered(alloc, keys, book, rows, &order, &sealed)?;
    tell_object(alloc, book, rows, id, of, &names, &values)
}

/// Tells a node that stands in a page.
pub(crate) fn tell(
    alloc: Global,
    keys: Option<RandomState>,
    book: &mut Book,
    rows: &Rows,
    id: NodeId,
    node: Node,
) -> Result<(), Memory>
    requires there { id.0 < length book.old.nodes }
    requires sound { IsSoundNode (length book.old.nodes) (node_of rows.now (kept_of node)) }
    ensures { OnOk result (NodeTold rows.now book.old book.new id.0 (kept_of node)) }
{
    match node {
        Node::Array(names, items) => tell_array(alloc, book, rows, id, names, items),
        Node::Open(members) => tell_open(alloc, book, rows, id, members),
        Node::Sealed(of, sealed) => tell_sealed(alloc, book, rows, id, of, sealed),
        Node::Ordered(of, order, sealed) => {
            tell_ordered(alloc, keys, book, rows, id, of, order, sealed)
        }
        Node::Wrapper(class, item) => tell_wrapper(alloc, book, rows, id, class, item),
        Node::Values(fixed, of, items) => tell_values(alloc, book, rows, id, fixed, of, items),
        Node::Dictionary(weak, items) => tell_dictionary(alloc, book, rows, id, weak, items),
        Node::XmlDocument(text) => tell_xml_document(book, id, &text),
        Node::Xml(text) => tell_xml(book, id, &text),
        Node::Date(time) => {
            book.tell_leaf(id, Leaf::Date(Pattern(time)));
            Ok(())
        }
        Node::Bytes(bytes) => {
            book.tell_leaf(id, Leaf::Bytes(bytes));
            Ok(())
        }
        Node::Ints(fixed, items) => {
            book.tell_leaf(id, Leaf::Ints(fixed, items));
            Ok(())
        }
        Node::Uints(fixed, items) => {
            book.tell_leaf(id, Leaf::Uints(fixed, items));
            Ok(())
        }
        Node::Doubles(fixed, items) => tell_doubles(alloc, book, id, fixed, &items),
    }
}
