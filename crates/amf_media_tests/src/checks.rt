use amf_test_rows::Row;
use std::process::Abort;

/// Ends the test where something else was got than the row says.
pub(crate) fn is(rt: &impl Abort, row: Row<'_>, got: &[u8], want: &[u8]) {
    let line = row.line();
    assert!(rt; got == want, "line {line}: {got:?} and not {want:?}");
}

/// The same of a place.
pub(crate) fn is_at(rt: &impl Abort, place: usize, got: &[u8], want: &[u8]) {
    assert!(rt; got == want, "at {place}: {got:?} and not {want:?}");
}
