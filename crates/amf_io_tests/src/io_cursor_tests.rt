ghost use Rattle.std.specs.Prelude.{◌≤◌, length};
ghost use Rattle.amf_io.specs.Cursor.{Counts};

use crate::checks::{field, holds, holds_of, number};
use crate::fields::pieces;
use amf_io::{Cursor, CursorEnd, Empty, FaultlessSource, MemorySource, Source, Window};
use amf_test_rows::{Row, Table};
use std::alloc::Global;
use std::process::Abort;

/// The first byte, with a cursor that is gone then. Where there is no memory for it, the source
/// stays as it was.
fn first<S: Source>(alloc: Global, source: &mut S) -> Result<u8, CursorEnd>
    ensures { Counts (S.faults source.old) (S.faults source.new) result }
{
    match Window::new(alloc, 10) {
        Ok(window) => {
            let mut cursor = Cursor::over(source, window);
            cursor.byte()
        }
        Err(_) => Err(CursorEnd::Memory),
    }
}

/// The first byte, and whether the next `n`, which are appended, are the last.
fn parts<S: Source>(
    cursor: &mut Cursor<'_, S>,
    n: u32,
    out: &mut Vec<u8>,
) -> Result<(u8, bool), CursorEnd> {
    let byte = cursor.byte()?;
    cursor.take_into(n, out)?;
    Ok((byte, cursor.at_end()?))
}

const BYTES: [u8; 6] = [7, 1, 2, 3, 4, 5];

/// In which pieces the bytes come.
const PIECES: &str = "65536 1 2 65536@1 65536@2 65536@3 65536@4 65536@5";

/// A limit, how many bytes are taken behind the first, and how many there are and whether they are the last, or the end.
static PARTS: Table = Table {
    rows: 8,
    fields: 3,
    text: r"
6 | 5 | 5 last
9 | 5 | 5 last
6 | 4 | 4 more
5 | 4 | 4 more
5 | 5 | too large
0 | 0 | too large
6 | 6 | ended
7 | 6 | ended
",
};

type Rest = Result<(usize, bool), CursorEnd>;

fn rest_of(rt: &impl Abort, row: Row<'_>) -> Rest {
    match field(rt, row, 2) {
        "5 last" => Ok((5, true)),
        "4 more" => Ok((4, false)),
        "too large" => Err(CursorEnd::TooLarge),
        "ended" => Err(CursorEnd::Ended),
        _ => panic!(rt; "no rest"),
    }
}

/// The first byte, the place of the cursor and the bytes behind the first are what they are to be.
fn expect_bytes(rt: &impl Abort, byte: u8, at: u32, out: &[u8]) {
    holds(rt, byte == 7, "the first byte");
    holds(rt, at as usize == out.len().wrapping_add(1), "the place");
    holds(rt, BYTES[1..].starts_with(out), "the bytes behind");
}

/// The bytes behind the first, and whether they are the last.
fn rest(rt: &impl Abort, alloc: Global, pieces: (usize, usize), limit: u32, n: u32) -> Rest {
    let made = FaultlessSource::new(alloc, &BYTES, pieces.0, pieces.1);
    let mut source = made.expect(rt, "a source");
    let mut cursor = Cursor::new(alloc, &mut source, limit).expect(rt, "a cursor");
    let mut out = Vec::new(alloc);
    match parts(&mut cursor, n, &mut out) {
        Ok((byte, ended)) => {
            expect_bytes(rt, byte, cursor.at(), &out);
            Ok((out.len(), ended))
        }
        Err(end) => Err(end),
    }
}

fn ask_rest(rt: &impl Abort, alloc: Global, row: Row<'_>) -> usize {
    let want = rest_of(rt, row);
    let (limit, n) = (number(rt, row, 0), number(rt, row, 1));
    let mut count = 0usize;
    for word in PIECES.split_whitespace() {
        let pieces = pieces(rt, word);
        let got = rest(rt, alloc, pieces, limit, n);
        holds_of(rt, row, pieces.1, got == want);
        count = count.wrapping_add(1);
    }
    count
}

#[test]
fn gives_the_same_in_any_pieces(rt: HostRuntime) {
    for row in PARTS.rows(rt.alloc()).expect(&rt, "rows").iter() {
        let count = ask_rest(&rt, rt.alloc(), *row);
        holds(&rt, count == 8, "pieces");
    }
}

/// How many bytes there are, a limit, how many of them are taken one by one and then how many at once, and whether they are the
/// last, or the end.
static OVER_BYTES: Table = Table {
    rows: 11,
    fields: 5,
    text: r"
6 | 6 | 6 | 0 | last
6 | 9 | 6 | 0 | last
6 | 6 | 0 | 6 | last
6 | 9 | 2 | 4 | last
6 | 6 | 5 | 0 | more
6 | 9 | 0 | 5 | more
6 | 6 | 7 | 0 | ended
6 | 9 | 2 | 5 | ended
0 | 0 | 0 | 0 | last
0 | 0 | 1 | 0 | ended
0 | 9 | 0 | 1 | ended
",
};

/// Whether the bytes that are taken from a cursor over bytes are the last.
fn over_bytes(
    rt: &impl Abort,
    alloc: Global,
    bytes: &[u8],
    limit: u32,
    parts: (u32, u32),
) -> Result<bool, CursorEnd>
    requires { length bytes.now ≤ limit }
{
    let mut end = Empty;
    let made = Cursor::over_bytes(alloc, &mut end, bytes, limit);
    let mut cursor = made.expect(rt, "a cursor");
    let mut out = Vec::new(alloc);
    for _ in 0..parts.0 {
        out.push(cursor.byte()?)?;
    }
    cursor.take_into(parts.1, &mut out)?;
    holds(rt, bytes.starts_with(&out), "the bytes");
    holds(rt, cursor.at() as usize == out.len(), "the place");
    let many = parts.0.wrapping_add(parts.1);
    holds(rt, cursor.at() == many, "how many");
    Ok(cursor.is_at_end())
}

fn ask_over_bytes(rt: &impl Abort, alloc: Global, row: Row<'_>) {
    let want = match field(rt, row, 4) {
        "last" => Ok(true),
        "more" => Ok(false),
        "ended" => Err(CursorEnd::Ended),
        _ => panic!(rt; "no end"),
    };
    let count = (number(rt, row, 0) as usize).min(6);
    let limit = number(rt, row, 1).max(count as u32);
    let parts = (number(rt, row, 2), number(rt, row, 3));
    let got = over_bytes(rt, alloc, &BYTES[..count], limit, parts);
    holds_of(rt, row, 0, got == want);
}

#[test]
fn gives_bytes_in_memory(rt: HostRuntime) {
    for row in OVER_BYTES.rows(rt.alloc()).expect(&rt, "rows").iter() {
        ask_over_bytes(&rt, rt.alloc(), *row);
    }
}

/// The first byte where a read fails, and how many faults there were then.
fn first_where(rt: &impl Abort, alloc: Global, failing: u64) -> (Result<u8, CursorEnd>, u64) {
    let made = MemorySource::new(alloc, &[7, 8, 9], 1, 0, &[failing]);
    let mut source = made.expect(rt, "a source");
    let got = first(alloc, &mut source);
    (got, source.faults())
}

#[test]
fn tells_faults(rt: HostRuntime) {
    let alloc = rt.alloc();
    let failed = first_where(&rt, alloc, 0);
    holds(&rt, failed == (Err(CursorEnd::ReadFault), 1), "a fault");
    holds(&rt, first_where(&rt, alloc, 1) == (Ok(7), 0), "no fault");
}

#[test]
fn loses_nothing_at_a_failed_read(rt: HostRuntime) {
    let alloc = rt.alloc();
    let made = MemorySource::new(alloc, &[7, 8, 9], 1, 0, &[0, 2]);
    let mut source = made.expect(&rt, "a source");
    for want in [
        Err(CursorEnd::ReadFault),
        Ok(7),
        Err(CursorEnd::ReadFault),
        Ok(8),
    ] {
        holds(&rt, first(alloc, &mut source) == want, "a read");
    }
    holds(&rt, source.faults() == 2, "the faults");
}
