use amf_fixtures::{graph0, graph3};
use amf_graph::Rooted;
use amf_test_rows::Row;
use amf_text_write::Layout;
use std::alloc::Global;
use std::process::Abort;

/// A field of a row.
pub(crate) fn field<'t>(rt: &impl Abort, row: Row<'t>, place: usize) -> &'t str {
    row.field(place).expect(rt, "a field")
}

/// The bytes of a field of a row.
pub(crate) fn bytes_of(rt: &impl Abort, alloc: Global, row: Row<'_>, place: usize) -> Vec<u8> {
    row.parts(alloc, place).expect(rt, "bytes")
}

/// The graph that the bytes of a field spell: in AMF 3, or in AMF 0.
pub(crate) fn graph_of(
    rt: &impl Abort,
    alloc: Global,
    row: Row<'_>,
    place: usize,
    is_amf3: bool,
) -> Rooted {
    let bytes = bytes_of(rt, alloc, row, place);
    if is_amf3 {
        graph3(alloc, &bytes).expect(rt, "a graph")
    } else {
        graph0(alloc, &bytes).expect(rt, "a graph")
    }
}

/// How a row's text is laid out.
pub(crate) fn layout_of(rt: &impl Abort, row: Row<'_>, place: usize) -> Layout {
    match field(rt, row, place) {
        "lines" => Layout::Lines,
        _ => Layout::Compact,
    }
}

/// Ends the test where another text was written than the field says.
pub(crate) fn is_text(rt: &impl Abort, alloc: Global, row: Row<'_>, place: usize, text: &[u8]) {
    let line = row.line();
    let want = bytes_of(rt, alloc, row, place);
    assert!(rt; text == want.as_slice(), "line {line}");
}
