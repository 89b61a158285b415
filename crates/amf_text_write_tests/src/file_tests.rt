use crate::checks::{bytes_of, field, graph_of, is_text, layout_of};
use amf_graph::{Rooted, Value};
use amf_test_rows::{Row, Table};
use amf_text_write::{FileVersion, Layout, file_text};
use amf_wire::is_amf_text;
use std::alloc::Global;
use std::process::Abort;

/// A file by its name, the format of its values and the bytes of its holder, the layout, and the text.
static FILES: Table = Table {
    rows: 3,
    fields: 5,
    text: r#"
'save1' | amf0 | 03 00 06 'player' 03 00 04 'name' 02 00 07 'Zoe "Z"' 00 04 'gold' 00 40 b3 88 00 00 00 00 00 00 01 'x' 00 c0 28 80 00 00 00 00 00 00 03 'bag' 0a 00 00 00 03 02 00 05 'sword' 00 40 00 00 00 00 00 00 00 05 00 00 09 00 06 'volume' 00 3f e9 99 99 99 99 99 9a 00 04 'seen' 01 01 00 04 'last' 0b 42 78 bc fe 56 80 00 00 00 00 00 00 09 | compact | '{"amf":"sol","name":"save1","pairs":{"last":{"$date":1700000000000},"player":{"bag":["sword",2,null],"gold":5000,"name":"Zoe \"Z\"","x":-12.25},"seen":true,"volume":0.8},"version":0}' 0a
's' | amf3 | 0a 0b 01 03 'b' 0a 0b 03 'C' 01 03 'a' 0a 02 01 | compact | '{"amf":"sol","name":"s","nodes":{"1":{"$class":"C","$dynamic":{}}},"pairs":{"a":{"$node":"1"},"b":{"$node":"1"}},"version":3}' 0a
ed a0 80 | amf0 | 03 00 00 09 | lines | '{' 0a '  "amf": "sol",' 0a '  "name": {' 0a '    "$text": "eda080"' 0a '  },' 0a '  "pairs": {},' 0a '  "version": 0' 0a '}' 0a
"#,
};

/// The text of a file whose root is a node.
fn text_of(
    rt: &impl Abort,
    alloc: Global,
    layout: Layout,
    name: &[u8],
    version: FileVersion,
    graph: &Rooted,
) -> Vec<u8> {
    assert!(rt; is_amf_text(name), "a text");
    match graph.root() {
        Value::Node(_) => file_text(alloc, layout, name, version, graph).expect(rt, "memory"),
        _ => panic!(rt; "a node"),
    }
}

fn writes_row(rt: &impl Abort, alloc: Global, row: Row<'_>) {
    let is_amf3 = field(rt, row, 1) == "amf3";
    let version = if is_amf3 {
        FileVersion::Amf3
    } else {
        FileVersion::Amf0
    };
    let name = bytes_of(rt, alloc, row, 0);
    let graph = graph_of(rt, alloc, row, 2, is_amf3);
    let text = text_of(rt, alloc, layout_of(rt, row, 3), &name, version, &graph);
    is_text(rt, alloc, row, 4, &text);
}

#[test]
fn writes_files(rt: HostRuntime) {
    for row in FILES.rows(rt.alloc()).expect(&rt, "rows").iter() {
        writes_row(&rt, rt.alloc(), *row);
    }
}
