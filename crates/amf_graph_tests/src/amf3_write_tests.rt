ghost use Rattle.std.specs.Prelude.{◌≡◌, IfSome};
ghost use Rattle.amf3_spelling.specs.Tables.{no_tables};
ghost use Rattle.amf_graph.specs.Arena.{IsTextId, Names, value_content};
ghost use Rattle.amf_graph.specs.Reached.{IsReachedValue};
ghost use Rattle.amf_graph.specs.Rooted.{content};
ghost use Rattle.amf3_write.specs.PartTables.{AreTablesOf};

use crate::checks::holds;
use amf_fixtures::{graph0, graph3, rooted_at};
use amf_graph::{Lack, LackKind, NodeView, Rooted, TextId, Value, WriteEnd};
use amf_tables::WriterTables;
use amf3_write::{
    GraphTables, write3, write3_keyed, write3_part, write3_part_of, write3_text, write3_text_of,
};
use std::alloc::Global;
use std::process::Abort;

/// An item of the array that is the root.
fn item(graph: &Rooted, place: usize) -> Option<Value>
    ensures names { IfSome result (Names graph.now.arena) }
    ensures reached { IfSome result (λ v. IsReachedValue (content graph.now) (value_content graph.now.arena v)) }
{
    graph.is_finished();
    let Value::Node(node) = graph.root() else {
        return None;
    };
    match graph.node(node) {
        NodeView::Array { items, .. } if place < items.len() => Some(items[place]),
        _ => None,
    }
}

/// The text that is the first item of an array, which is the first item of the root.
fn text(graph: &Rooted) -> Option<TextId>
    ensures { IfSome result (λ text. IsTextId graph.now.arena text.0) }
{
    graph.is_finished();
    let Some(Value::Node(inner)) = item(graph, 0) else {
        return None;
    };
    match graph.node(inner) {
        NodeView::Array { items, .. } if items.len() > 0 => match items[0] {
            Value::Text(text) => Some(text),
            _ => None,
        },
        _ => None,
    }
}

/// Tables without entries.
pub(crate) fn empty_tables(rt: &impl Abort, alloc: Global) -> WriterTables
    ensures { result ≡ no_tables }
{
    WriterTables::new(alloc).expect(rt, "tables")
}

/// Writes the text and the items of a graph by tables that are given.
fn by_given_tables(rt: &impl Abort, alloc: Global, graph: &Rooted, out: &mut Vec<u8>) {
    let text = text(graph).expect(rt, "a text");
    let part = item(graph, 0).expect(rt, "an item");
    let again = item(graph, 1).expect(rt, "an item");
    let mut tables = empty_tables(rt, alloc);
    write3_text(alloc, graph, text, &mut tables, out).expect(rt, "a text");
    write3_part(alloc, graph, part, &mut tables, out).expect(rt, "an item");
    write3_part(alloc, graph, again, &mut tables, out).expect(rt, "an item");
}

/// The same by the tables of a graph, an item first.
fn by_tables_of_a_graph(rt: &impl Abort, alloc: Global, graph: &Rooted, out: &mut Vec<u8>) {
    let mut tables = GraphTables::of(alloc, empty_tables(rt, alloc));
    put_parts(rt, alloc, graph, &mut tables, out);
}

fn put_parts(
    rt: &impl Abort,
    alloc: Global,
    graph: &Rooted,
    tables: &mut GraphTables,
    out: &mut Vec<u8>,
)
    requires { AreTablesOf graph.now.arena tables.old }
    ensures { AreTablesOf graph.now.arena tables.new }
{
    put_item(rt, alloc, graph, 0, tables, out);
    let text = text(graph).expect(rt, "a text");
    write3_text_of(alloc, graph, text, tables, out).expect(rt, "a text");
    put_item(rt, alloc, graph, 1, tables, out);
}

fn put_item(
    rt: &impl Abort,
    alloc: Global,
    graph: &Rooted,
    place: usize,
    tables: &mut GraphTables,
    out: &mut Vec<u8>,
)
    requires { AreTablesOf graph.now.arena tables.old }
    ensures { AreTablesOf graph.now.arena tables.new }
{
    let part = item(graph, place).expect(rt, "an item");
    write3_part_of(alloc, graph, part, tables, out).expect(rt, "an item");
}

/// Writes a graph twice.
fn twice(rt: &impl Abort, alloc: Global, graph: &Rooted, out: &mut Vec<u8>) {
    write3(alloc, graph, out).expect(rt, "a graph");
    write3_keyed(alloc, None, graph, out).expect(rt, "a graph");
}

/// How a graph is written.
#[derive(Clone, Copy, Debug)]
enum Way {
    Twice,
    ByGivenTables,
    ByTablesOfAGraph,
}

/// Looks at what is written of a graph behind a byte.
fn is_written(rt: &impl Abort, alloc: Global, graph: &Rooted, way: Way, want: &[u8]) {
    let mut out = vec![in alloc; 0xAA].expect(rt, "memory");
    match way {
        Way::Twice => twice(rt, alloc, graph, &mut out),
        Way::ByGivenTables => by_given_tables(rt, alloc, graph, &mut out),
        Way::ByTablesOfAGraph => by_tables_of_a_graph(rt, alloc, graph, &mut out),
    }
    assert!(rt; out.as_slice() == want, "{way:?}: {out:?}");
}

/// An array of one inner array twice, which holds a text.
const SHARED: &[u8] = b"\x09\x05\x01\x09\x03\x01\x06\x03a\x09\x02";

static WRITTEN: [(Way, &[u8]); 3] = [
    (
        Way::Twice,
        b"\xAA\x09\x05\x01\x09\x03\x01\x06\x03a\x09\x02\
            \x09\x05\x01\x09\x03\x01\x06\x03a\x09\x02",
    ),
    (Way::ByGivenTables, b"\xAA\x03a\x09\x03\x01\x06\x00\x09\x00"),
    (
        Way::ByTablesOfAGraph,
        b"\xAA\x09\x03\x01\x06\x03a\x00\x09\x00",
    ),
];

#[test]
fn graphs_and_their_parts(rt: HostRuntime) {
    let graph = graph3(rt.alloc(), SHARED).expect(&rt, "a graph");
    for (way, want) in WRITTEN.iter() {
        is_written(&rt, rt.alloc(), &graph, *way, want);
    }
}

/// In AMF 0 an array of two nodes, of which the second is an array of two nodes that have an empty name, of which the second
/// leads to the first.
const UNNAMED: &[u8] = b"\x0A\x00\x00\x00\x02\x0A\x00\x00\x00\x00\x0A\x00\x00\x00\x02\
    \x08\x00\x00\x00\x00\x00\x00\x05\x00\x00\x09\
    \x08\x00\x00\x00\x00\x00\x00\x07\x00\x03\x00\x00\x09";

/// The lack of the first node with the empty name, which is the second of the graph.
const EMPTY_NAME: Lack = Lack {
    kind: LackKind::EmptyName,
    node: 1,
};

/// Whether a writing ended with the lack of a name, and nothing was written behind a byte.
fn lacks_a_name(rt: &impl Abort, end: Result<(), WriteEnd>, out: &[u8]) {
    match end {
        Err(WriteEnd::NoSpelling(lack)) => holds(rt, lack == EMPTY_NAME, "the lack"),
        _ => panic!(rt; "no lack"),
    }
    holds(rt, out == [0xAA].as_slice(), "nothing written");
}

/// An item of the root, by tables of its own.
fn has_no_part(rt: &impl Abort, alloc: Global, graph: &Rooted, place: usize) {
    let part = item(graph, place).expect(rt, "an item");
    let mut tables = empty_tables(rt, alloc);
    let mut out = vec![in alloc; 0xAA].expect(rt, "memory");
    let end = write3_part(alloc, graph, part, &mut tables, &mut out);
    lacks_a_name(rt, end, &out);
}

fn has_no_spelling(rt: &impl Abort, alloc: Global, graph: &Rooted) {
    let mut out = vec![in alloc; 0xAA].expect(rt, "memory");
    let end = write3(alloc, graph, &mut out);
    lacks_a_name(rt, end, &out);
}

#[test]
fn empty_names(rt: HostRuntime) {
    let whole = graph0(rt.alloc(), UNNAMED).expect(&rt, "a graph");
    let graph = rooted_at(whole, 2).expect(&rt, "a node");
    for place in 0..2 {
        has_no_part(&rt, rt.alloc(), &graph, place);
    }
    has_no_spelling(&rt, rt.alloc(), &graph);
}
