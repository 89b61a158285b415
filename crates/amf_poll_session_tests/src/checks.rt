use amf_test_rows::Row;
use std::process::Abort;

/// Ends the test where something does not hold of a row.
pub(crate) fn holds_of(rt: &impl Abort, row: Row<'_>, right: bool) {
    let line = row.line();
    assert!(rt; right, "line {line}");
}

/// Ends the test where something does not hold at this place of the bytes.
pub(crate) fn holds_at(rt: &impl Abort, place: usize, right: bool, what: &str) {
    assert!(rt; right, "at {place}: {what}");
}
