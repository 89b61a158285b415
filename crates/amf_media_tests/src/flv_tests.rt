use crate::checks::{is, is_at};
use crate::runs::{
    failing, front, job_of, pieces, reads_fail, run, runs_in_any_pieces, wanted, writes_fail,
};
use amf_media::FlvJob;
use amf_test_rows::Table;
use std::alloc::Global;
use std::test::Fail;

/// A job, an input, how it ends, and the output.
static INPUTS: Table = Table {
    rows: 9,
    fields: 4,
    text: "
drop | 'FLV' 01 05 00000009 00000000 | Done | 'FLV' 01 05 00000009 00000000
drop | 'FLV' 01 FF 00000009 01020304 | Done | 'FLV' 01 FF 00000009 01020304
show | 'FLV' 01 05 00000009 00000000 | Done |
drop | 'FLW' 01 05 00000009 00000000 | BadSignature 0 |
show | 'FLV' 02 05 00000009 00000000 | BadVersion 3 |
drop | 'FLV' 01 05 00000008 00000000 | BadLength 5 |
drop | | Truncated 0 |
drop | 'FLV' 01 05 00000009 000000 | Truncated 9 |
show | 'FLV' 01 05 | Truncated 5 |
",
};

/// Bytes behind a head, how the job that lists the metadata ends, and its output.
static SHOWN: Table = Table {
    rows: 12,
    fields: 3,
    text: "
08 000001 00000000 000000 AF 0000000C | Done |
12 00000E 00000000 000000 02000A'onMetaData'05 00000019 08 000001 00000000 000000 AF 0000000C | Done | 'meta' 0A 'root null' 0A
# Twice, with another value, bytes behind the value, and another time, stream and number.
12 00000E 00000000 000000 02000A'onMetaData'05 00000019 12 000011 01020304 050607 02000A'onMetaData'0101FFFF 00000000 | Done | 'meta' 0A 'root null' 0A 'meta' 0A 'root true' 0A
# Script data of another name, of a size that ends inside the name, and the name in another type.
12 00000E 00000000 000000 02000A'onMetaDate'05 00000019 | Done |
12 00000C 00000000 000000 02000A'onMetaDat' 00000017 | Done |
08 00000E 00000000 000000 02000A'onMetaData'05 00000019 | Done |
# A value that goes past its tag, a marker that is none, no value.
12 000012 00000000 000000 02000A'onMetaData'020005'ab' 0000001D | Truncated 40 |
12 00000E 00000000 000000 02000A'onMetaData'FF 00000019 | BadMarker 37 |
12 00000D 00000000 000000 02000A'onMetaData' 00000018 | Truncated 37 |
# What stands before was listed.
12 00000E 00000000 000000 02000A'onMetaData'05 00000019 12 00000D 00000000 000000 02000A'onMetaData' 00000018 | Truncated 66 | 'meta' 0A 'root null' 0A
12 00000E 00000000 000000 02000A'onMetaData'05 00000019 08 00 | Truncated 43 | 'meta' 0A 'root null' 0A
# A tag that is not whole is refused before its value is judged.
12 FFFFFF 00000000 000000 02000A'onMetaData'FF 00000019 | Truncated 24 |
",
};

/// Bytes behind a head, how the job that drops the metadata ends, and its output behind the head.
static DROPPED: Table = Table {
    rows: 9,
    fields: 3,
    text: "
12 00000E 00000000 000000 02000A'onMetaData'05 00000019 08 000001 00000000 000000 AF 0000000C | Done | 08 000001 00000000 000000 AF 0000000C
# In any place, any number of times, whatever value.
08 000001 00000000 000000 AF 0000000C 12 00000E 00000000 000000 02000A'onMetaData'FF 00000019 09 000000 00000000 000000 0000000B | Done | 08 000001 00000000 000000 AF 0000000C 09 000000 00000000 000000 0000000B
12 00000D 00000000 000000 02000A'onMetaData' 00000018 12 00000E 00000000 000000 02000A'onMetaData'05 00000019 | Done |
# All else stays as it is.
FF 000000 FFFFFFFF FFFFFF FFFFFFFF 08 000001 01020304 050607 AF 00000000 | Done | FF 000000 FFFFFFFF FFFFFF FFFFFFFF 08 000001 01020304 050607 AF 00000000
12 00000E 00000000 000000 02000A'onMetaDate'05 00000019 | Done | 12 00000E 00000000 000000 02000A'onMetaDate'05 00000019
08 00000E 00000000 000000 02000A'onMetaData'05 00000019 | Done | 08 00000E 00000000 000000 02000A'onMetaData'05 00000019
# The whole tags before a refusal are written.
08 000001 00000000 000000 AF 0000000C 08 00 | Truncated 30 | 08 000001 00000000 000000 AF 0000000C
08 000001 00000000 000000 AF 0000000C 08 FFFFFF 00000000 000000 0001020304 | Truncated 40 | 08 000001 00000000 000000 AF 0000000C
12 00000E 00000000 000000 02000A'onMetaData'05 00000019 08 010000 00000000 | Truncated 50 |
",
};

/// The head, audio of one byte, and the metadata null.
const FILE: &[u8] =
    b"FLV\x01\x05\0\0\0\x09\0\0\0\0\x08\0\0\x01\0\0\0\0\0\0\0\xAF\0\0\0\x0C\x12\0\0\x0E\0\0\0\0\0\0\0\x02\0\x0AonMetaData\x05\0\0\0\x19";

/// From where to where the file is cut, how the job that drops ends, and how many of its first bytes are written.
static CUTS: Table = Table {
    rows: 18,
    fields: 4,
    text: "
0 | 2 | Truncated 0 | 0
3 | 3 | Truncated 3 | 0
4 | 4 | Truncated 4 | 0
5 | 8 | Truncated 5 | 0
9 | 12 | Truncated 9 | 0
13 | 13 | Done | 13
14 | 16 | Truncated 14 | 13
17 | 20 | Truncated 17 | 13
21 | 23 | Truncated 21 | 13
24 | 24 | Truncated 24 | 13
25 | 28 | Truncated 25 | 13
29 | 29 | Done | 29
30 | 32 | Truncated 30 | 29
33 | 36 | Truncated 33 | 29
37 | 39 | Truncated 37 | 29
40 | 53 | Truncated 40 | 29
54 | 57 | Truncated 54 | 29
58 | 58 | Done | 29
",
};

/// What is listed of the front of the file that is cut at a place.
fn shown_of(cut: u32) -> &'static [u8] {
    if cut == 58 { b"meta\nroot null\n" } else { b"" }
}

/// From which to which read of one byte one fails, and how many bytes are written before.
static READ_FAULTS: Table = Table {
    rows: 3,
    fields: 3,
    text: "
0 | 12 | 0
13 | 28 | 13
29 | 58 | 29
",
};

/// The head, and these bytes behind it.
fn behind_head(alloc: Global, bytes: &[u8]) -> Result<Vec<u8>, Fail> {
    let mut file = Vec::new(alloc);
    file.extend_from_slice(&FILE[..13])?;
    file.extend_from_slice(bytes)?;
    Ok(file)
}

#[test]
fn heads_are_copied_or_refused(rt: HostRuntime) -> Result<(), Fail> {
    for row in INPUTS.rows(rt.alloc())?.iter() {
        let job = job_of(row.field(0)?);
        let bytes = row.bytes(rt.alloc(), 1)?;
        let output = row.bytes(rt.alloc(), 3)?;
        let want = wanted(rt.alloc(), row.field(2)?, &output)?;
        runs_in_any_pieces(&rt, rt.alloc(), *row, job, &bytes, &want)?;
    }
    Ok(())
}

#[test]
fn metadata_are_listed(rt: HostRuntime) -> Result<(), Fail> {
    for row in SHOWN.rows(rt.alloc())?.iter() {
        let file = behind_head(rt.alloc(), &row.bytes(rt.alloc(), 0)?)?;
        let want = wanted(rt.alloc(), row.field(1)?, &row.bytes(rt.alloc(), 2)?)?;
        runs_in_any_pieces(&rt, rt.alloc(), *row, FlvJob::Show, &file, &want)?;
    }
    Ok(())
}

#[test]
fn metadata_are_dropped(rt: HostRuntime) -> Result<(), Fail> {
    for row in DROPPED.rows(rt.alloc())?.iter() {
        let file = behind_head(rt.alloc(), &row.bytes(rt.alloc(), 0)?)?;
        let output = behind_head(rt.alloc(), &row.bytes(rt.alloc(), 2)?)?;
        let want = wanted(rt.alloc(), row.field(1)?, &output)?;
        runs_in_any_pieces(&rt, rt.alloc(), *row, FlvJob::Drop, &file, &want)?;
    }
    Ok(())
}

#[test]
fn files_are_cut_at_each_byte(rt: HostRuntime) -> Result<(), Fail> {
    for row in CUTS.rows(rt.alloc())?.iter() {
        let output = front(FILE, row.number(3)? as usize);
        let want = wanted(rt.alloc(), row.field(2)?, output)?;
        for cut in row.number(0)?..=row.number(1)? {
            let bytes = front(FILE, cut as usize);
            is(
                &rt,
                *row,
                &run(rt.alloc(), FlvJob::Drop, bytes, &pieces(65_536, 0))?,
                &want,
            );
        }
    }
    Ok(())
}

#[test]
fn metadata_are_listed_of_files_that_are_cut(rt: HostRuntime) -> Result<(), Fail> {
    for row in CUTS.rows(rt.alloc())?.iter() {
        for cut in row.number(0)?..=row.number(1)? {
            let want = wanted(rt.alloc(), row.field(2)?, shown_of(cut))?;
            let bytes = front(FILE, cut as usize);
            is(
                &rt,
                *row,
                &run(rt.alloc(), FlvJob::Show, bytes, &pieces(65_536, 0))?,
                &want,
            );
        }
    }
    Ok(())
}

#[test]
fn a_read_fails(rt: HostRuntime) -> Result<(), Fail> {
    reads_fail(&rt, rt.alloc(), &READ_FAULTS, FlvJob::Drop, FILE, FILE)
}

/// The job drops, and this write of one byte fails: the bytes before were written. Behind the 29 bytes comes the flush.
#[test]
fn a_write_fails(rt: HostRuntime) -> Result<(), Fail> {
    writes_fail(&rt, rt.alloc(), 30, FlvJob::Drop, FILE, FILE)
}

/// The read that would come behind the end fails, and does not come.
#[test]
fn no_read_follows_the_end(rt: HostRuntime) -> Result<(), Fail> {
    let link = failing(&[59], &[]);
    let want = wanted(rt.alloc(), "Done", front(FILE, 29))?;
    is_at(&rt, 59, &run(rt.alloc(), FlvJob::Drop, FILE, &link)?, &want);
    Ok(())
}
