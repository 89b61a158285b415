use crate::checks::{bytes_of, field, is_text, layout_of};
use amf_fixtures::{graph0, graph3};
use amf_graph::Rooted;
use amf_json::{ValueForm, json_laws, value_is_ready, value_json};
use amf_test_rows::{Row, Table};
use std::alloc::Global;
use std::process::Abort;

/// A layout, a form, the bytes of a value, and its text.
static TEXTS: Table = Table {
    rows: 12,
    fields: 4,
    text: r#"
compact | amf3 | 01 | '{"amf":"amf3","root":null}' 0a
lines | amf3 | 09 03 01 06 05 'hi' | '{' 0a '  "amf": "amf3",' 0a '  "root": [' 0a '    "hi"' 0a '  ]' 0a '}' 0a
compact | amf3 | 05 40 14 00 00 00 00 00 00 | '{"amf":"amf3","root":{"$double":5}}' 0a
# An array that holds itself, and one array twice.
compact | amf3 | 09 03 01 09 00 | '{"amf":"amf3","nodes":{"0":[{"$node":"0"}]},"root":{"$node":"0"}}' 0a
compact | amf3 | 09 05 01 09 01 01 09 02 | '{"amf":"amf3","nodes":{"1":[]},"root":[{"$node":"1"},{"$node":"1"}]}' 0a
# A class whose sealed names do not rise, and an object without a class.
compact | amf3 | 0a 23 03 'P' 03 'y' 03 'x' 04 03 01 | '{"amf":"amf3","root":{"$class":"P","$names":["y","x"],"$sealed":{"x":null,"y":3}}}' 0a
compact | amf3 | 0a 0b 01 03 'b' 02 03 'a' 04 01 01 | '{"amf":"amf3","root":{"a":1,"b":false}}' 0a
# In AMF 0 whole doubles stand bare, and what is in AMF 3 is lowered.
compact | amf0 | 00 40 14 00 00 00 00 00 00 | '{"amf":"amf0","root":5}' 0a
compact | amf0 | 0a 00 00 00 01 01 01 | '{"amf":"amf0","root":[true]}' 0a
compact | amf0 | 11 04 05 | '{"amf":"amf0","root":5}' 0a
compact | amf0 | 11 0a 13 03 'P' 03 'x' 04 01 | '{"amf":"amf0","root":{"$class":"P","$dynamic":{"x":1}}}' 0a
compact | amf3 | 0a 13 03 'P' 03 'x' 04 01 | '{"amf":"amf3","root":{"$class":"P","$sealed":{"x":1}}}' 0a
"#,
};

fn form_of(rt: &impl Abort, row: Row<'_>) -> ValueForm {
    match field(rt, row, 1) {
        "amf3" => ValueForm::Amf3,
        "amf0" => ValueForm::Amf0,
        _ => panic!(rt; "a form"),
    }
}

/// The graph that the bytes of a row spell in its form.
fn graph_of(rt: &impl Abort, alloc: Global, row: Row<'_>) -> Rooted {
    let bytes = bytes_of(rt, alloc, row, 2);
    let graph = match form_of(rt, row) {
        ValueForm::Amf3 => graph3(alloc, &bytes),
        ValueForm::Amf0 => graph0(alloc, &bytes),
    };
    graph.expect(rt, "a graph")
}

fn is_told(rt: &impl Abort, alloc: Global, row: Row<'_>, graph: &Rooted) {
    value_is_ready(graph);
    let text = value_json(alloc, layout_of(rt, row), form_of(rt, row), graph);
    is_text(rt, alloc, row, 3, &text.expect(rt, "memory"));
}

#[test]
fn tells_values(rt: HostRuntime) {
    json_laws();
    for row in TEXTS.rows(rt.alloc()).expect(&rt, "rows").iter() {
        let graph = graph_of(&rt, rt.alloc(), *row);
        is_told(&rt, rt.alloc(), *row, &graph);
    }
}
