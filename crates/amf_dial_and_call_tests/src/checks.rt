use amf_test_rows::Row;
use std::process::Abort;

/// Ends the test where something does not hold.
pub(crate) fn holds(rt: &impl Abort, right: bool, what: &str) {
    assert!(rt; right, "{what}");
}

/// Ends the test where something does not hold of a row, at this place of the bytes.
pub(crate) fn holds_of(rt: &impl Abort, row: Row<'_>, place: usize, right: bool) {
    let line = row.line();
    assert!(rt; right, "line {line}, at {place}");
}

/// Ends the test where something does not hold at this place of the bytes.
pub(crate) fn holds_at(rt: &impl Abort, place: usize, right: bool, what: &str) {
    assert!(rt; right, "at {place}: {what}");
}
