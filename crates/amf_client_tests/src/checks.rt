use amf_test_rows::Row;
use std::alloc::Global;
use std::process::Abort;

/// Ends the test where something does not hold.
pub(crate) fn holds(rt: &impl Abort, right: bool, what: &str) {
    assert!(rt; right, "{what}");
}

/// A field of a row.
pub(crate) fn field<'t>(rt: &impl Abort, row: Row<'t>, place: usize) -> &'t str {
    row.field(place).expect(rt, "a field")
}

/// A number of a row.
pub(crate) fn number(rt: &impl Abort, row: Row<'_>, place: usize) -> u32 {
    row.number(place).expect(rt, "a number")
}

/// The bytes of a field of a row.
pub(crate) fn bytes_in(rt: &impl Abort, alloc: Global, row: Row<'_>, place: usize) -> Vec<u8> {
    row.bytes(alloc, place).expect(rt, "bytes")
}
