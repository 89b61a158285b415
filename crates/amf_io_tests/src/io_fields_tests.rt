ghost use Rattle.std.specs.Prelude.{◌≤◌};
ghost use Rattle.amf_io.specs.Cursor.{bound};

use crate::checks::holds;
use amf_io::{
    Cursor, CursorEnd, MemorySource, ReadEnd, Reason, Source, append_basic, append_exactly,
    append_field, append_raw, read_end, refused,
};
use std::alloc::Global;
use std::process::Abort;

/// A field to append behind a byte that was there.
#[derive(Clone, Copy)]
enum Wanted {
    /// So many bytes.
    Field(u32),
    /// So many bytes, none of which is refused.
    Raw(u32),
    /// These bytes, and no others.
    Exactly(&'static [u8]),
    /// A basic header.
    Basic,
}

/// An input, a field that is wanted of it, and what is appended, or the end.
static FIELDS: [(&[u8], Wanted, Result<&[u8], Reason>); 12] = [
    (b"abc", Wanted::Field(2), Ok(b"ab")),
    (b"abc", Wanted::Raw(3), Ok(b"abc")),
    (b"a", Wanted::Field(2), Err(Reason::Truncated)),
    (b"abcde", Wanted::Raw(5), Err(Reason::TooLarge)),
    (b"FLV", Wanted::Exactly(b"FLV"), Ok(b"FLV")),
    (b"FLW", Wanted::Exactly(b"FLV"), Err(Reason::BadSignature)),
    (b"FL", Wanted::Exactly(b"FLV"), Err(Reason::Truncated)),
    (&[0x03, 0x09], Wanted::Basic, Ok(&[0x03])),
    (&[0xC0, 0x09, 0x08], Wanted::Basic, Ok(&[0xC0, 0x09])),
    (
        &[0x41, 0x09, 0x08, 0x07],
        Wanted::Basic,
        Ok(&[0x41, 0x09, 0x08]),
    ),
    (&[0x01, 0x09], Wanted::Basic, Err(Reason::Truncated)),
    (b"", Wanted::Basic, Err(Reason::Truncated)),
];

/// Appends the field that is wanted.
fn append<S: Source>(
    cursor: &mut Cursor<'_, S>,
    wanted: Wanted,
    out: &mut Vec<u8>,
) -> Result<(), ReadEnd> {
    match wanted {
        Wanted::Field(0) | Wanted::Raw(0) => Ok(()),
        Wanted::Field(size) => append_field(cursor, size, out),
        Wanted::Raw(size) => append_raw(cursor, size, out),
        Wanted::Exactly(bytes) if bytes.is_empty() || bytes.len() > 1000 => Ok(()),
        Wanted::Exactly(bytes) => append_exactly(cursor, bytes, Reason::BadSignature, out),
        Wanted::Basic => append_basic(cursor, out),
    }
}

/// Appends the field, of an input of at most four bytes that comes in pieces of at most `most`, behind a byte.
fn appended(
    rt: &impl Abort,
    alloc: Global,
    input: &[u8],
    most: usize,
    wanted: Wanted,
    out: &mut Vec<u8>,
) -> Result<(), ReadEnd> {
    out.push(0xAA).expect(rt, "memory");
    let mut source = MemorySource::new(alloc, input, most, 0, &[]).expect(rt, "a source");
    let mut cursor = Cursor::new(alloc, &mut source, 4).expect(rt, "a cursor");
    append(&mut cursor, wanted, out)
}

/// Whether this was appended behind the byte, or it ended so.
fn is_right(got: Result<(), ReadEnd>, out: &[u8], want: Result<&[u8], Reason>) -> bool {
    match (got, want) {
        (Ok(()), Ok(want)) => out.len() > 0 && out[0] == 0xAA && &out[1..] == want,
        (Err(got), Err(want)) => got == refused(want, 0),
        _ => false,
    }
}

/// This is appended behind the byte, or it ends so.
fn expect_appended(
    rt: &impl Abort,
    alloc: Global,
    input: &[u8],
    most: usize,
    wanted: Wanted,
    want: Result<&[u8], Reason>,
) {
    let mut out = Vec::new(alloc);
    let got = appended(rt, alloc, input, most, wanted, &mut out);
    assert!(rt; is_right(got, &out, want), "{input:?} in pieces of {most}");
}

#[test]
fn fields_are_appended(rt: HostRuntime) {
    for (input, wanted, want) in FIELDS.iter() {
        for most in [1usize, 2, 3, 100] {
            expect_appended(&rt, rt.alloc(), input, most, *wanted, *want);
        }
    }
}

/// What is read of three bytes under a limit of two, which is raised by one then.
fn raised(rt: &impl Abort, alloc: Global) -> Result<(u8, u8, bool, u8, bool), ReadEnd> {
    let source = MemorySource::new(alloc, b"abc", 2, 0, &[]);
    let mut source = source.expect(rt, "a source");
    let mut cursor = Cursor::new(alloc, &mut source, 2).expect(rt, "a cursor");
    match read_past(&mut cursor) {
        Ok(read) => Ok(read),
        Err(end) => Err(read_end(end, 0)),
    }
}

/// Two bytes, whether a third is too much, that byte once the limit is raised, and whether it was the last.
fn read_past<S: Source>(cursor: &mut Cursor<'_, S>) -> Result<(u8, u8, bool, u8, bool), CursorEnd>
    requires { bound cursor.old ≤ 3 }
{
    let first = cursor.byte()?;
    let second = cursor.byte()?;
    let past = cursor.byte() == Err(CursorEnd::TooLarge);
    cursor.raise(3);
    let third = cursor.byte()?;
    let ended = cursor.at_end()?;
    Ok((first, second, past, third, ended))
}

#[test]
fn a_raised_limit_lets_more_bytes_through(rt: HostRuntime) {
    let got = raised(&rt, rt.alloc());
    holds(
        &rt,
        got == Ok((b'a', b'b', true, b'c', true)),
        "three bytes",
    );
}
