ghost use Rattle.std.specs.Prelude.{◌≡◌, true, codes, length};
ghost use Rattle.amf_graph.specs.Arena.{Names, array};
ghost use Rattle.amf_graph.specs.Building.{no_arena, kept_text, kept_node, begun};

use crate::checks::holds;
use amf_graph::{
    BuildEnd, Builder, Lack, LackKind, Leaf, NodeId, NodeKind, NodeView, Part, Rooted, Shape,
    TextId, TraitsId, TraitsView, Value, WriteEnd, finished_facts, fit_rows, graph_rows,
};
use amf_wire::{Pattern, is_amf_text};
use std::alloc::Global;
use std::fmt::Display;
use std::process::Abort;

static ROOTS: [Value; 7] = [
    Value::Undefined,
    Value::Null,
    Value::Bool(false),
    Value::Bool(true),
    Value::Integer(-268_435_456),
    Value::Integer(268_435_455),
    Value::Double(Pattern(0x4014_0000_0000_0000)),
];

/// Whether it is a value of a graph without texts and nodes, and no negative double.
fn stands_alone(value: &Value) -> bool
    ensures { result ≡ true → Names no_arena value.now }
{
    match value {
        Value::Integer(n) => *n >= -268_435_456 && *n <= 268_435_455,
        Value::Double(p) => p.0 < 0x8000_0000_0000_0000,
        Value::Text(_) | Value::Node(_) => false,
        _ => true,
    }
}

/// A graph of this value alone.
fn graph_of(rt: &impl Abort, alloc: Global, root: Value) -> Rooted {
    assert!(rt; stands_alone(&root), "such a value");
    finished(rt, Builder::new(alloc).expect(rt, "a builder"), root)
}

fn keeps_its_root(rt: &impl Abort, alloc: Global, root: Value) {
    let graph = graph_of(rt, alloc, root);
    assert!(rt; graph.root() == root, "{root:?}");
}

#[test]
fn keeps_the_root(rt: HostRuntime) {
    for root in ROOTS.iter() {
        keeps_its_root(&rt, rt.alloc(), *root);
    }
}

#[test]
fn facts_stand(_rt: HostRuntime) {
    graph_rows();
    fit_rows();
    finished_facts();
}

/// Texts by their places, each with its place among all in their order.
static TEXTS: [(u32, &[u8], u32); 7] = [
    (0, &[b'b'; 65], 5),
    (1, b"b", 4),
    (2, &[b'a'; 66], 3),
    (3, &[b'a'; 65], 2),
    (4, &[b'a'; 64], 1),
    (5, &[b'a'; 65], 2),
    (6, b"a", 0),
];

/// Keeps a text.
fn keep_text(rt: &impl Abort, builder: &mut Builder, bytes: &[u8]) -> TextId
    ensures id { result.0 ≡ length builder.old.texts }
    ensures kept { builder.new ≡ kept_text builder.old bytes.now }
{
    assert!(rt; is_amf_text(bytes), "a text");
    builder.text(bytes).expect(rt, "a text")
}

/// A graph of these texts alone.
pub(crate) fn of_two_texts(rt: &impl Abort, alloc: Global, first: &[u8], second: &[u8]) -> Rooted
    ensures { length result.arena.texts ≡ 2 }
{
    let mut builder = Builder::new(alloc).expect(rt, "a builder");
    keep_text(rt, &mut builder, first);
    keep_text(rt, &mut builder, second);
    finished(rt, builder, Value::Null)
}

/// A graph of the texts alone.
fn graph_of_texts(rt: &impl Abort, alloc: Global) -> Rooted {
    let mut builder = Builder::new(alloc).expect(rt, "a builder");
    for (_, bytes, _) in TEXTS.iter() {
        keep_text(rt, &mut builder, bytes);
    }
    finished(rt, builder, Value::Null)
}

/// Compares a text with each.
fn compare_text(rt: &impl Abort, graph: &Rooted, x: u32, left: u32) {
    for (y, _, right) in TEXTS.iter() {
        let found = graph.compare_texts(TextId(x), TextId(*y));
        assert!(rt; found == left.cmp(right), "{x} and {y}");
    }
}

#[test]
fn compares_texts(rt: HostRuntime) {
    let graph = graph_of_texts(&rt, rt.alloc());
    for (x, _, left) in TEXTS.iter() {
        compare_text(&rt, &graph, *x, *left);
    }
}

/// A builder with the text `a` and an open array.
fn an_open_array(rt: &impl Abort, alloc: Global) -> Builder
    ensures { result ≡ kept_node (kept_text no_arena (codes "a")) (begun array) }
{
    let mut builder = Builder::new(alloc).expect(rt, "a builder");
    keep_text(rt, &mut builder, b"a");
    builder.open_node(Shape::Array).expect(rt, "an array");
    builder
}

/// The graph with this root.
fn finished(rt: &impl Abort, builder: Builder, root: Value) -> Rooted
    requires { Names builder root }
    ensures { result.arena ≡ builder }
{
    match builder.finish(root) {
        Ok(graph) => graph,
        Err(_) => panic!(rt; "an open node"),
    }
}

/// Puts the array itself into an open array, and null under the name `a`, and closes it.
fn fill_array(rt: &impl Abort, builder: &mut Builder) -> Value
    requires { builder.old ≡ kept_node (kept_text no_arena (codes "a")) (begun array) }
    ensures { Names builder.new result }
{
    let array = NodeId(0);
    builder
        .put(array, Part::Named(TextId(0), Value::Null))
        .expect(rt, "a name");
    builder
        .put(array, Part::Item(Value::Node(array)))
        .expect(rt, "an item");
    builder.close_node(array);
    Value::Node(array)
}

/// An array that holds itself, and null under the name `a`.
fn an_array(rt: &impl Abort, alloc: Global) -> Rooted {
    let mut builder = an_open_array(rt, alloc);
    let root = fill_array(rt, &mut builder);
    finished(rt, builder, root)
}

/// Adds an object of a class `a` with a sealed member of that name, which is true, and a dynamic one, which is null.
fn add_object(rt: &impl Abort, builder: &mut Builder) -> Value
    requires { builder.old ≡ no_arena }
    ensures { Names builder.new result }
{
    let name = keep_text(rt, builder, b"a");
    let traits = builder.traits(name, true, &[name]).expect(rt, "traits");
    let object = builder
        .open_node(Shape::Object(traits))
        .expect(rt, "an object");
    builder
        .put(object, Part::Named(name, Value::Null))
        .expect(rt, "a member");
    builder
        .put(object, Part::Item(Value::Bool(true)))
        .expect(rt, "a member");
    builder.close_node(object);
    Value::Node(object)
}

/// The object alone.
fn an_object(rt: &impl Abort, alloc: Global) -> Rooted {
    let mut builder = Builder::new(alloc).expect(rt, "a builder");
    let root = add_object(rt, &mut builder);
    finished(rt, builder, root)
}

/// What node 0 holds, if it is there.
fn shown(graph: &Rooted) -> Option<NodeView<'_>> {
    if graph.node_count() == 0 {
        return None;
    }
    Some(graph.node(NodeId(0)))
}

#[test]
fn kinds_and_texts(rt: HostRuntime) {
    let builder = an_open_array(&rt, rt.alloc());
    holds(
        &rt,
        builder.text_of(TextId(0)) == b"a".as_slice(),
        "the text",
    );
    holds(
        &rt,
        builder.kind_of(NodeId(0)) == NodeKind::Array,
        "the kind",
    );
}

/// Looks at the parts of an array.
fn is_the_array(rt: &impl Abort, items: &[Value], names: &[(TextId, Value)]) {
    holds(
        rt,
        items == [Value::Node(NodeId(0))].as_slice(),
        "the items",
    );
    holds(
        rt,
        names == [(TextId(0), Value::Null)].as_slice(),
        "the names",
    );
}

fn is_an_array(rt: &impl Abort, graph: &Rooted) {
    holds(rt, graph.node_count() == 1, "how many nodes");
    match shown(graph) {
        Some(NodeView::Array { items, names }) => is_the_array(rt, items, names),
        _ => panic!(rt; "no array"),
    }
}

#[test]
fn builds_an_array(rt: HostRuntime) {
    let graph = an_array(&rt, rt.alloc());
    is_an_array(&rt, &graph);
}

/// Looks at the parts of an object.
fn is_the_object(rt: &impl Abort, sealed: &[Value], members: &[(TextId, Value)]) {
    holds(
        rt,
        sealed == [Value::Bool(true)].as_slice(),
        "the sealed values",
    );
    holds(
        rt,
        members == [(TextId(0), Value::Null)].as_slice(),
        "the members",
    );
}

/// The traits of node 0, if it is an object.
fn class_of(graph: &Rooted) -> Option<TraitsView<'_>> {
    graph.is_finished();
    if graph.node_count() == 0 {
        return None;
    }
    match graph.node(NodeId(0)) {
        NodeView::Object { traits, .. } => Some(graph.traits(traits)),
        _ => None,
    }
}

fn is_an_object(rt: &impl Abort, graph: &Rooted) {
    match shown(graph) {
        Some(
            NodeView::Object {
                traits,
                sealed,
                members,
            },
        ) => {
            holds(rt, traits == TraitsId(0), "the traits");
            is_the_object(rt, sealed, members);
        }
        _ => panic!(rt; "no object"),
    }
}

fn has_traits(rt: &impl Abort, graph: &Rooted) {
    let view = class_of(graph).expect(rt, "an object");
    holds(rt, view.class == TextId(0), "the class");
    holds(rt, view.dynamic, "further members");
    holds(
        rt,
        view.sealed == [TextId(0)].as_slice(),
        "the sealed names",
    );
}

#[test]
fn builds_an_object(rt: HostRuntime) {
    let graph = an_object(&rt, rt.alloc());
    is_an_object(&rt, &graph);
    has_traits(&rt, &graph);
}

/// Short byte arrays.
static BYTE_ARRAYS: [&[u8]; 2] = [b"", &[1, 2, 0xff]];

/// A byte array alone.
fn a_byte_array(rt: &impl Abort, alloc: Global, bytes: &[u8]) -> Rooted {
    let mut builder = Builder::new(alloc).expect(rt, "a builder");
    let array = builder.bytes(bytes).expect(rt, "a byte array");
    finished(rt, builder, Value::Node(array))
}

fn has_bytes(rt: &impl Abort, graph: &Rooted, bytes: &[u8]) {
    match shown(graph) {
        Some(NodeView::Bytes(found)) => holds(rt, found == bytes, "the bytes"),
        _ => panic!(rt; "no byte array"),
    }
}

fn keeps_bytes(rt: &impl Abort, alloc: Global, bytes: &[u8]) {
    let graph = a_byte_array(rt, alloc, bytes);
    has_bytes(rt, &graph, bytes);
}

#[test]
fn builds_byte_arrays(rt: HostRuntime) {
    for bytes in BYTE_ARRAYS.iter() {
        keeps_bytes(&rt, rt.alloc(), bytes);
    }
}

/// A byte array that has a list of its own.
#[test]
fn builds_a_long_byte_array(rt: HostRuntime) {
    let bytes = vec![in rt.alloc(); 7; 4096].expect(&rt, "4,096 bytes");
    keeps_bytes(&rt, rt.alloc(), &bytes);
}

/// A builder with a date and two open arrays.
fn two_open_arrays(rt: &impl Abort, alloc: Global) -> Builder {
    let mut builder = Builder::new(alloc).expect(rt, "a builder");
    builder.leaf(Leaf::Date(Pattern(0))).expect(rt, "a date");
    builder.open_node(Shape::Array).expect(rt, "an array");
    builder.open_node(Shape::Array).expect(rt, "an array");
    builder
}

/// The open node for which there is no graph.
fn open_node(rt: &impl Abort, builder: Builder) -> NodeId {
    match builder.finish(Value::Null) {
        Ok(_) => panic!(rt; "no open node"),
        Err(unfinished) => unfinished.node,
    }
}

#[test]
fn tells_the_open_node(rt: HostRuntime) {
    let node = open_node(&rt, two_open_arrays(&rt, rt.alloc()));
    holds(&rt, node == NodeId(1), "the open node");
}

/// Looks at how an end is told.
fn is_told(rt: &impl Abort, alloc: Global, end: &impl Display, words: &str) {
    let said = format!(in alloc; "{end}").expect(rt, "memory");
    holds(rt, said.as_str() == words, words);
}

#[test]
fn says_why(rt: HostRuntime) {
    let alloc = rt.alloc();
    let lack = Lack {
        kind: LackKind::EmptyName,
        node: 512,
    };
    is_told(&rt, alloc, &BuildEnd::Memory, "no memory");
    is_told(&rt, alloc, &BuildEnd::Full, "the graph is full");
    is_told(&rt, alloc, &WriteEnd::Memory, "no memory");
    is_told(
        &rt,
        alloc,
        &WriteEnd::NoSpelling(lack),
        "no spelling from node 512",
    );
}
