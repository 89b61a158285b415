use amf_json::Layout;
use amf_test_rows::Row;
use std::alloc::Global;
use std::process::Abort;

/// A field of a row.
pub(crate) fn field<'t>(rt: &impl Abort, row: Row<'t>, place: usize) -> &'t str {
    row.field(place).expect(rt, "a field")
}

/// The layout that a row names first.
pub(crate) fn layout_of(rt: &impl Abort, row: Row<'_>) -> Layout {
    match field(rt, row, 0) {
        "lines" => Layout::Lines,
        "compact" => Layout::Compact,
        _ => panic!(rt; "a layout"),
    }
}

/// The bytes that a row spells.
pub(crate) fn bytes_of(rt: &impl Abort, alloc: Global, row: Row<'_>, place: usize) -> Vec<u8> {
    row.bytes(alloc, place).expect(rt, "bytes")
}

/// Ends the test where a text is not the last field of its row.
pub(crate) fn is_text(rt: &impl Abort, alloc: Global, row: Row<'_>, place: usize, text: &[u8]) {
    let want = bytes_of(rt, alloc, row, place);
    let line = row.line();
    assert!(rt; text == want.as_slice(), "line {line}");
}
