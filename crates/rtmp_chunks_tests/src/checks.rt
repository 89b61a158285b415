use amf_test_rows::Row;
use std::alloc::Global;
use std::process::Abort;

/// Ends the test where something does not hold.
pub(crate) fn holds(rt: &impl Abort, right: bool, what: &str) {
    assert!(rt; right, "{what}");
}

/// Ends the test where something else was got than the row says.
pub(crate) fn is(rt: &impl Abort, row: Row<'_>, got: &str, want: &str) {
    let line = row.line();
    assert!(rt; got == want, "line {line}: {got} and not {want}");
}

/// A field of a row.
pub(crate) fn field<'t>(rt: &impl Abort, row: Row<'t>, place: usize) -> &'t str {
    row.field(place).expect(rt, "a field")
}

/// A number of a row.
pub(crate) fn number(rt: &impl Abort, row: Row<'_>, place: usize) -> u32 {
    row.number(place).expect(rt, "a number")
}

/// Appends the bytes of a field of a row.
pub(crate) fn put_bytes(
    rt: &impl Abort,
    alloc: Global,
    row: Row<'_>,
    place: usize,
    out: &mut Vec<u8>,
) {
    let bytes = row.bytes(alloc, place).expect(rt, "bytes");
    out.extend_from_slice(&bytes).expect(rt, "memory");
}

/// Appends a byte so many times.
fn put_times(rt: &impl Abort, byte: u8, times: u32, out: &mut Vec<u8>) {
    for _ in 0..times {
        out.push(byte).expect(rt, "memory");
    }
}

/// Appends the bytes of three fields of a row: a front, how many times AA, and the rest.
pub(crate) fn fill(rt: &impl Abort, alloc: Global, row: Row<'_>, place: usize, out: &mut Vec<u8>) {
    put_bytes(rt, alloc, row, place, out);
    put_times(rt, 0xAA, number(rt, row, place.wrapping_add(1)), out);
    put_bytes(rt, alloc, row, place.wrapping_add(2), out);
}

/// Appends a handshake, 03 and 3,072 times 00.
pub(crate) fn put_handshake(rt: &impl Abort, out: &mut Vec<u8>) {
    put_times(rt, 3, 1, out);
    put_times(rt, 0, 3072, out);
}
