use amf_test_rows::Row;
use std::process::Abort;

/// Ends the test where something else was got than the row says.
pub(crate) fn is(rt: &impl Abort, row: Row<'_>, got: &str, want: &str) {
    let line = row.line();
    assert!(rt; got == want, "line {line}: {got} and not {want}");
}

/// Ends the test where something does not hold.
pub(crate) fn holds(rt: &impl Abort, right: bool, what: &str) {
    assert!(rt; right, "{what}");
}

/// The same of a row.
pub(crate) fn holds_in(rt: &impl Abort, row: Row<'_>, right: bool, what: &str) {
    let line = row.line();
    assert!(rt; right, "line {line}: {what}");
}
