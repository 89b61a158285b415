use crate::checks::is;
use crate::walk::{Reading, file_told};
use amf_test_rows::{Row, Table};
use std::alloc::Global;
use std::process::Abort;
use std::test::Fail;

/// Beyond the end of each file here.
const FAR: u32 = 1000;

/// Bytes, and what is told of them as a file.
static HEADS: Table = Table {
    rows: 22,
    fields: 2,
    text: "
'FLV' 01 05 00000009 00000000 | head, end
# Any flags, and any number before the first tag.
'FLV' 01 00 00000009 00000000 | head, end
'FLV' 01 FF 00000009 01020304 | head, end
# Another signature, as one field of three bytes.
'FLW' 01 05 00000009 00000000 | BadSignature 0
'flv' 01 05 00000009 00000000 | BadSignature 0
'XLV' | BadSignature 0
# Another version.
'FLV' 00 05 00000009 00000000 | BadVersion 3
'FLV' 02 05 00000009 00000000 | BadVersion 3
'FLV' 02 | BadVersion 3
# Another offset.
'FLV' 01 05 00000008 00000000 | BadLength 5
'FLV' 01 05 0000000A 00000000 | BadLength 5
'FLV' 01 05 09000000 | BadLength 5
# The first fault counts.
'FLX' 02 05 00000008 | BadSignature 0
'FLV' 02 05 00000008 | BadVersion 3
# The input ends inside a field.
 | Truncated 0
'FX' | Truncated 0
'FLV' | Truncated 3
'FLV' 01 | Truncated 4
'FLV' 01 05 | Truncated 5
'FLV' 01 05 08FFFF | Truncated 5
'FLV' 01 05 00000009 | Truncated 9
'FLV' 01 05 00000009 000000 | Truncated 9
",
};

/// Bytes behind a head, and what is told of the file.
static TAGS: Table = Table {
    rows: 15,
    fields: 2,
    text: "
 | head, end
# Audio of one byte, once and twice.
08 000001 00000000 000000 AF 0000000C | head, 13+16, end
08 000001 00000000 000000 AF 0000000C 09 000002 00000000 000000 1700 0000000D | head, 13+16, 29+17, end
# The value null as metadata, and then audio.
12 00000E 00000000 000000 02000A'onMetaData'05 00000019 08 000001 00000000 000000 AF 0000000C | head, 13+29 meta, 42+16, end
# Data of no bytes; any type, time, stream and number.
09 000000 00000000 000000 0000000B | head, 13+15, end
FF 000000 FFFFFFFF FFFFFF FFFFFFFF | head, 13+15, end
08 000001 01020304 050607 AF 00000000 | head, 13+16, end
# Behind the last tag stands the front of one.
08 000001 00000000 000000 AF 0000000C 08 00 | head, 13+16, Truncated 30
08 000001 00000000 000000 AF 0000000C 08 | head, 13+16, Truncated 30
# The number behind the data is not whole, or not there.
08 000001 00000000 000000 AF 000000 | head, Truncated 25
08 000001 00000000 000000 AF | head, Truncated 25
# Sizes of 1, of 64 KiB and of 16 MiB less one, and too few bytes.
08 000001 00000000 000000 | head, Truncated 24
08 010000 00000000 000000 00010203040506070809 | head, Truncated 24
08 FFFFFF 00000000 000000 00010203040506070809 | head, Truncated 24
12 FFFFFF 00000000 000000 02000A'onMetaData'05 00000019 | head, Truncated 24
",
};

/// The head, the metadata null and audio of one byte.
const FILE: &[u8] =
    b"FLV\x01\x05\0\0\0\x09\0\0\0\0\x12\0\0\x0E\0\0\0\0\0\0\0\x02\0\x0AonMetaData\x05\0\0\0\x19\x08\0\0\x01\0\0\0\0\0\0\0\xAF\0\0\0\x0C";

/// From where to where the file is cut, and what is told of its front.
static CUTS: Table = Table {
    rows: 18,
    fields: 3,
    text: "
0 | 2 | Truncated 0
3 | 3 | Truncated 3
4 | 4 | Truncated 4
5 | 8 | Truncated 5
9 | 12 | Truncated 9
13 | 13 | head, end
14 | 16 | head, Truncated 14
17 | 20 | head, Truncated 17
21 | 23 | head, Truncated 21
24 | 37 | head, Truncated 24
38 | 41 | head, Truncated 38
42 | 42 | head, 13+29 meta, end
43 | 45 | head, 13+29 meta, Truncated 43
46 | 49 | head, 13+29 meta, Truncated 46
50 | 52 | head, 13+29 meta, Truncated 50
53 | 53 | head, 13+29 meta, Truncated 53
54 | 57 | head, 13+29 meta, Truncated 54
58 | 58 | head, 13+29 meta, 42+16, end
",
};

/// Limits, the reads of one byte that fail, and what is told of the file.
static ENDS: Table = Table {
    rows: 17,
    fields: 3,
    text: "
0 | | TooLarge 0
2 | | TooLarge 0
3 | | TooLarge 3
12 | | TooLarge 9
13 | | head, TooLarge 13
14 | | head, TooLarge 14
37 | | head, TooLarge 24
41 | | head, TooLarge 38
42 | | head, 13+29 meta, TooLarge 42
57 | | head, 13+29 meta, TooLarge 54
58 | | head, 13+29 meta, 42+16, end
100 | 0 | ReadFault
100 | 12 | ReadFault
100 | 13 | head, ReadFault
100 | 24 | head, ReadFault
100 | 42 | head, 13+29 meta, ReadFault
100 | 58 | head, 13+29 meta, 42+16, ReadFault
",
};

/// In pieces of so many bytes at most, the first of which ends at the cut.
fn pieces(most: usize, cut: usize) -> Reading<'static> {
    Reading {
        limit: FAR,
        most,
        cut,
        failing: &[],
    }
}

fn is_told_as(
    rt: &impl Abort,
    alloc: Global,
    row: Row<'_>,
    bytes: &[u8],
    reading: &Reading<'_>,
) -> Result<(), Fail> {
    let told = file_told(alloc, bytes, reading)?;
    is(rt, row, &told, row.field(row.width().saturating_sub(1))?);
    Ok(())
}

/// Reads bytes whole, a byte at a time, and in two pieces that meet at each place.
fn is_told_in_any_pieces(
    rt: &impl Abort,
    alloc: Global,
    row: Row<'_>,
    bytes: &[u8],
) -> Result<(), Fail> {
    is_told_as(rt, alloc, row, bytes, &pieces(1, 0))?;
    for cut in 0..=bytes.len() {
        is_told_as(rt, alloc, row, bytes, &pieces(65_536, cut))?;
    }
    Ok(())
}

#[test]
fn heads_are_read_or_refused(rt: HostRuntime) -> Result<(), Fail> {
    for row in HEADS.rows(rt.alloc())?.iter() {
        let bytes = row.bytes(rt.alloc(), 0)?;
        is_told_in_any_pieces(&rt, rt.alloc(), *row, &bytes)?;
    }
    Ok(())
}

/// The head, and these bytes behind it.
fn behind_head(alloc: Global, bytes: &[u8]) -> Result<Vec<u8>, Fail> {
    let mut file = Vec::new(alloc);
    file.extend_from_slice(&FILE[..13])?;
    file.extend_from_slice(bytes)?;
    Ok(file)
}

#[test]
fn tags_are_read_or_refused(rt: HostRuntime) -> Result<(), Fail> {
    for row in TAGS.rows(rt.alloc())?.iter() {
        let bytes = row.bytes(rt.alloc(), 0)?;
        let file = behind_head(rt.alloc(), &bytes)?;
        is_told_in_any_pieces(&rt, rt.alloc(), *row, &file)?;
    }
    Ok(())
}

/// The front of the file that is cut at a place.
fn front_of(cut: usize) -> &'static [u8] {
    match cut < FILE.len() {
        true => &FILE[..cut],
        false => FILE,
    }
}

#[test]
fn a_file_is_cut_at_each_place(rt: HostRuntime) -> Result<(), Fail> {
    for row in CUTS.rows(rt.alloc())?.iter() {
        for cut in row.number(0)?..=row.number(1)? {
            let front = front_of(cut as usize);
            is_told_as(&rt, rt.alloc(), *row, front, &pieces(65_536, 0))?;
            is_told_as(&rt, rt.alloc(), *row, front, &pieces(1, 0))?;
        }
    }
    Ok(())
}

fn ends_as(rt: &impl Abort, alloc: Global, row: Row<'_>) -> Result<(), Fail> {
    let failing = row.numbers(alloc, 1)?;
    let reading = Reading {
        limit: row.number(0)?,
        most: 1,
        cut: 0,
        failing: &failing,
    };
    is_told_as(rt, alloc, row, FILE, &reading)
}

#[test]
fn a_file_ends_where_the_limit_or_a_read_ends(rt: HostRuntime) -> Result<(), Fail> {
    for row in ENDS.rows(rt.alloc())?.iter() {
        ends_as(&rt, rt.alloc(), *row)?;
    }
    Ok(())
}
