use amf_test_rows::Row;
use std::process::Abort;

/// Ends the test unless this holds.
pub(crate) fn holds(rt: &impl Abort, is: bool, label: &str) {
    assert!(rt; is, "{label}");
}

/// Ends the test unless a row is answered as it says.
pub(crate) fn is_answered(rt: &impl Abort, row: Row<'_>, got: &str, want: &str) {
    let line = row.line();
    assert!(rt; got == want, "line {line}: {got}");
}

/// A field of a row.
pub(crate) fn field<'t>(rt: &impl Abort, row: Row<'t>, place: usize) -> &'t str {
    row.field(place).expect(rt, "a field")
}

/// A number of a row.
pub(crate) fn number(rt: &impl Abort, row: Row<'_>, place: usize) -> u32 {
    row.number(place).expect(rt, "a number")
}
