ghost use Rattle.std.specs.Prelude.{◌≡◌, ◌<◌, length};
ghost use Rattle.amf_graph.specs.Arena.{HeadNames};
ghost use Rattle.amf_graph.specs.Bounds.{count_end, items_of};
ghost use Rattle.amf_graph.specs.Building.{no_arena, kept_text, kept_node, leaf_head};
ghost use Rattle.amf_sheet.specs.Telling.{untold, told, with_node, AreAllTold};
ghost use Rattle.amf_sheet_tests.specs.Sheets.{met_again, begun_of_a_class, of_a_class, of_a_type};

use amf_graph::{Leaf, MAX_COUNT, NodeId, Rooted, Shape, TextId, TraitsId, Value};
use amf_sheet::{FIRST_LABEL, Sheet, linked_value};
use amf_test_rows::{Row, Table};
use amf_wire::{Pattern, is_amf_text};
use amf3_write::write3;
use std::alloc::Global;
use std::process::Abort;

/// A graph, and its bytes in AMF 3.
static GRAPHS: Table = Table {
    rows: 7,
    fields: 2,
    text: r#"
met again | 09 05 03 'n' 09 01 01 01 09 00 09 02
class | 0a 1b 03 'C' 03 'a' 11 03 01 06 03 'k' 0a 00 03 'd' 06 02 01
type | 10 05 00 03 'C' 01 04 05
ints | 0d 05 01 ff ff ff fe 00 00 00 1e
uints | 0e 03 00 ff ff ff ff
doubles | 0f 03 01 3f f8 00 00 00 00 00 00
bytes | 0c 05 00 af
"#,
};

/// A sheet that holds nothing.
fn new_sheet(rt: &impl Abort, alloc: Global) -> Sheet
    ensures { result ≡ no_arena }
{
    Sheet::new(alloc, None).expect(rt, "a sheet")
}

/// Keeps a text.
fn keep_text(rt: &impl Abort, sheet: &mut Sheet, bytes: &[u8])
    requires { length sheet.old.texts < MAX_COUNT }
    ensures { sheet.new ≡ kept_text sheet.old bytes.now }
{
    assert!(rt; is_amf_text(bytes), "a text");
    assert!(rt; bytes.len() < 8, "a short one");
    sheet.text(bytes).expect(rt, "a text");
}

/// One more node.
fn begin(rt: &impl Abort, sheet: &mut Sheet)
    requires { length sheet.old.nodes < MAX_COUNT }
    ensures { sheet.new ≡ kept_node sheet.old untold }
{
    sheet.begin().expect(rt, "a node");
}

/// Tells a node that takes parts.
fn tell(
    rt: &impl Abort,
    sheet: &mut Sheet,
    node: NodeId,
    shape: Shape,
    names: &[(TextId, Value)],
    values: &[Value],
)
    requires { node.0 < length sheet.old.nodes }
    ensures { sheet.new ≡ with_node node.0 (told shape names.now values.now) sheet.old }
{
    sheet.tell(node, shape, names, values).expect(rt, "parts");
}

/// An array that holds itself, by a label, and another one twice, which is told first.
fn met_again_sheet(rt: &impl Abort, alloc: Global) -> Sheet
    ensures { result ≡ met_again }
{
    let mut sheet = new_sheet(rt, alloc);
    keep_text(rt, &mut sheet, b"n");
    begin(rt, &mut sheet);
    begin(rt, &mut sheet);
    let own = Value::Node(NodeId(FIRST_LABEL));
    let other = Value::Node(NodeId(1));
    tell(rt, &mut sheet, NodeId(1), Shape::Array, &[], &[]);
    tell(
        rt,
        &mut sheet,
        NodeId(0),
        Shape::Array,
        &[(TextId(0), other)],
        &[own, other],
    );
    sheet.link(&[NodeId(0)]);
    sheet
}

/// A vector of values.
fn type_sheet(rt: &impl Abort, alloc: Global) -> Sheet
    ensures { result ≡ of_a_type }
{
    let mut sheet = new_sheet(rt, alloc);
    keep_text(rt, &mut sheet, b"C");
    begin(rt, &mut sheet);
    let items = [Value::Null, Value::Integer(5)];
    tell(
        rt,
        &mut sheet,
        NodeId(0),
        Shape::Values(false, TextId(0)),
        &[],
        &items,
    );
    sheet
}

/// A sheet with the texts of an object, its class, and two nodes.
fn begun_class_sheet(rt: &impl Abort, alloc: Global) -> Sheet
    ensures { result ≡ begun_of_a_class }
{
    let mut sheet = new_sheet(rt, alloc);
    keep_text(rt, &mut sheet, b"C");
    keep_text(rt, &mut sheet, b"a");
    keep_text(rt, &mut sheet, b"k");
    keep_text(rt, &mut sheet, b"d");
    sheet
        .traits(TextId(0), true, &[TextId(1)])
        .expect(rt, "traits");
    begin(rt, &mut sheet);
    begin(rt, &mut sheet);
    sheet
}

/// An object with a sealed value, a dictionary that has the object as a value, and with a dynamic member.
fn class_sheet(rt: &impl Abort, alloc: Global) -> Sheet
    ensures { result ≡ of_a_class }
{
    let mut sheet = begun_class_sheet(rt, alloc);
    let entry = [Value::Text(TextId(2)), Value::Node(NodeId(0))];
    tell(
        rt,
        &mut sheet,
        NodeId(1),
        Shape::Dictionary(true),
        &[],
        &entry,
    );
    let member = [(TextId(3), Value::Text(TextId(1)))];
    tell(
        rt,
        &mut sheet,
        NodeId(0),
        Shape::Object(TraitsId(0)),
        &member,
        &[Value::Node(NodeId(1))],
    );
    sheet
}

/// The graph of a sheet, rooted at its first node.
fn finished(rt: &impl Abort, sheet: Sheet) -> Rooted
    requires told { AreAllTold sheet }
    requires node { 0 < length sheet.nodes }
{
    sheet.finish(Value::Node(NodeId(0))).expect(rt, "a graph")
}

/// A graph of a node without parts.
fn of_leaf(rt: &impl Abort, alloc: Global, leaf: Leaf) -> Rooted
    requires names { HeadNames no_arena (leaf_head leaf) }
    requires few { items_of (leaf_head leaf) < count_end }
{
    let mut sheet = new_sheet(rt, alloc);
    begin(rt, &mut sheet);
    sheet.tell_leaf(NodeId(0), leaf);
    finished(rt, sheet)
}

/// A node without parts.
fn leaf_of(rt: &impl Abort, alloc: Global, name: &str) -> Leaf
    ensures names { HeadNames no_arena (leaf_head result) }
    ensures few { items_of (leaf_head result) < count_end }
{
    match name {
        "ints" => Leaf::Ints(true, vec![in alloc; -2, 30].expect(rt, "items")),
        "uints" => Leaf::Uints(false, vec![in alloc; 0xffff_ffff].expect(rt, "items")),
        "doubles" => Leaf::Doubles(
            true,
            vec![in alloc; Pattern(0x3ff8_0000_0000_0000)].expect(rt, "items"),
        ),
        "bytes" => Leaf::Bytes(vec![in alloc; 0, 0xaf].expect(rt, "bytes")),
        _ => panic!(rt; "a graph"),
    }
}

/// The graph of a row.
fn graph_of(rt: &impl Abort, alloc: Global, name: &str) -> Rooted {
    match name {
        "met again" => finished(rt, met_again_sheet(rt, alloc)),
        "class" => finished(rt, class_sheet(rt, alloc)),
        "type" => finished(rt, type_sheet(rt, alloc)),
        _ => of_leaf(rt, alloc, leaf_of(rt, alloc, name)),
    }
}

/// Whether the bytes are those of the row.
fn is_right(rt: &impl Abort, alloc: Global, row: Row<'_>, bytes: &[u8]) -> bool {
    bytes == row.bytes(alloc, 1).expect(rt, "bytes").as_slice()
}

fn tells_row(rt: &impl Abort, alloc: Global, row: Row<'_>) {
    let graph = graph_of(rt, alloc, row.field(0).expect(rt, "a name"));
    let mut bytes = Vec::new(alloc);
    write3(alloc, &graph, &mut bytes).expect(rt, "bytes");
    let line = row.line();
    assert!(rt; is_right(rt, alloc, row, &bytes), "line {line}");
}

#[test]
fn tells_graphs(rt: HostRuntime) {
    for row in GRAPHS.rows(rt.alloc()).expect(&rt, "rows").iter() {
        tells_row(&rt, rt.alloc(), *row);
    }
}

/// Values, and what they are where the labels stand for the nodes 7 and 9.
static LINKED: [(Value, Value); 5] = [
    (Value::Node(NodeId(268_435_456)), Value::Node(NodeId(7))),
    (Value::Node(NodeId(268_435_457)), Value::Node(NodeId(9))),
    (Value::Node(NodeId(268_435_458)), Value::Node(NodeId(0))),
    (
        Value::Node(NodeId(268_435_455)),
        Value::Node(NodeId(268_435_455)),
    ),
    (Value::Integer(1), Value::Integer(1)),
];

#[test]
fn puts_numbers_for_labels(rt: HostRuntime) {
    for (value, linked) in LINKED.iter() {
        assert!(rt;
            linked_value(&[NodeId(7), NodeId(9)], *value) == *linked,
            "{value:?}"
        );
    }
}
