use amf_test_rows::Row;
use std::process::Abort;

/// Ends the test where something does not hold.
pub(crate) fn holds(rt: &impl Abort, right: bool, what: &str) {
    assert!(rt; right, "{what}");
}

/// Ends the test where something does not hold of a row; `at` says where.
pub(crate) fn holds_of(rt: &impl Abort, row: Row<'_>, at: usize, right: bool) {
    let line = row.line();
    assert!(rt; right, "line {line}, at {at}");
}

/// A field of a row.
pub(crate) fn field<'t>(rt: &impl Abort, row: Row<'t>, place: usize) -> &'t str {
    row.field(place).expect(rt, "a field")
}

/// A number of a row.
pub(crate) fn number(rt: &impl Abort, row: Row<'_>, place: usize) -> u32 {
    row.number(place).expect(rt, "a number")
}
