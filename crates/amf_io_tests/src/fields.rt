use crate::checks::{field, holds};
use amf_test_rows::Row;
use std::alloc::Global;
use std::process::Abort;

/// Appends the bytes of a text, in which `\r`, `\n`, `\t`, `\s` and `\\` stand for a return, a newline, a tab, a space and a
/// `\`. It has no other `\`.
pub(crate) fn put_text(rt: &impl Abort, out: &mut Vec<u8>, text: &str) {
    let mut is_behind = false;
    for byte in text.bytes() {
        if is_behind {
            out.push(meant(byte).expect(rt, "what is meant"))
                .expect(rt, "memory");
            is_behind = false;
        } else if byte == b'\\' {
            is_behind = true;
        } else {
            out.push(byte).expect(rt, "memory");
        }
    }
    holds(rt, !is_behind, "an end of a text");
}

/// What a byte behind a `\` stands for.
fn meant(byte: u8) -> Option<u8> {
    match byte {
        b'r' => Some(b'\r'),
        b'n' => Some(b'\n'),
        b't' => Some(b'\t'),
        b's' => Some(b' '),
        b'\\' => Some(b'\\'),
        _ => None,
    }
}

/// The bytes of a field that is such a text.
pub(crate) fn text_of(rt: &impl Abort, alloc: Global, row: Row<'_>, place: usize) -> Vec<u8> {
    let mut out = Vec::new(alloc);
    put_text(rt, &mut out, field(rt, row, place));
    out
}

/// A field that is a number.
pub(crate) fn integer(rt: &impl Abort, row: Row<'_>, place: usize) -> i64 {
    field(rt, row, place).parse::<i64>().expect(rt, "a number")
}

/// A field that is 64 bits in hexadecimal digits.
pub(crate) fn bits(rt: &impl Abort, row: Row<'_>, place: usize) -> u64 {
    u64::from_str_radix(field(rt, row, place), 16).expect(rt, "bits")
}

/// How bytes come: the most in a piece, `all` being any number, and behind an `@` a place that no piece goes past.
pub(crate) fn pieces(rt: &impl Abort, word: &str) -> (usize, usize) {
    let (most, cut) = word.split_once('@').unwrap_or((word, "0"));
    let most = match most {
        "all" => usize::MAX,
        _ => most.parse::<usize>().expect(rt, "a size"),
    };
    (most, cut.parse::<usize>().expect(rt, "a place"))
}
