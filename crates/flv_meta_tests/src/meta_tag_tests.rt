use crate::checks::{holds, holds_in, is};
use amf_fixtures::{graph0, graph3};
use amf_graph::Rooted;
use amf_test_rows::{Row, Table};
use amf_wire::{U29, write_u29};
use flv_meta::{MetaTagEnd, meta_tag};
use std::alloc::Global;
use std::process::Abort;
use std::test::Fail;

/// The format of a value and its bytes, and its metadata tag or why there is none.
static TAGS: Table = Table {
    rows: 7,
    fields: 4,
    text: "
0 | 05 | 12 00000E 00000000 000000 02000A'onMetaData' 05 00000019 |
0 | 00 3FF0000000000000 | 12 000016 00000000 000000 02000A'onMetaData' 00 3FF0000000000000 00000021 |
# Names in order, in an array with names.
0 | 08 00000000 0001'b' 0101 0001'a' 05 000009 | 12 00001E 00000000 000000 02000A'onMetaData' 08 00000002 0001'a' 05 0001'b' 0101 000009 00000029 |
# An integer is a number, and AMF 3 is not used.
3 | 04 05 | 12 000016 00000000 000000 02000A'onMetaData' 00 4014000000000000 00000021 |
0 | 11 06 03'a' | 12 000011 00000000 000000 02000A'onMetaData' 02 0001'a' 0000001C |
# Without a form.
3 | 0C 03 FF | | NoForm 0
3 | 09 03 01 0C 03 FF | | NoForm 1
",
};

/// The value of a row.
fn graph_in(alloc: Global, row: Row<'_>) -> Result<Rooted, Fail> {
    let bytes = row.bytes(alloc, 1)?;
    if row.number(0)? == 0 {
        Ok(graph0(alloc, &bytes)?)
    } else {
        Ok(graph3(alloc, &bytes)?)
    }
}

fn end_told(alloc: Global, end: MetaTagEnd) -> Result<String, Fail> {
    match end {
        MetaTagEnd::NoSpelling(lack) => {
            let kind = lack.kind;
            let node = lack.node;
            Ok(format!(in alloc; "{kind:?} {node}")?)
        }
        MetaTagEnd::LongData => Ok(String::from_str(alloc, "LongData")?),
        MetaTagEnd::Memory => Err("no memory")?,
    }
}

/// The tag goes behind a byte, and an end leaves that alone.
fn is_made(rt: &impl Abort, alloc: Global, row: Row<'_>, graph: &Rooted) -> Result<(), Fail> {
    let mut out = vec![in alloc; 0xAA]?;
    match meta_tag(alloc, graph, &mut out) {
        Ok(()) => {
            let tag = row.bytes(alloc, 2)?;
            let mut want = vec![in alloc; 0xAA]?;
            want.extend_from_slice(&tag)?;
            holds_in(rt, row, out == want, "the tag");
        }
        Err(end) => {
            let told = end_told(alloc, end)?;
            is(rt, row, &told, row.field(3)?);
            holds_in(
                rt,
                row,
                out.as_slice() == [0xAA].as_slice(),
                "nothing is written",
            );
        }
    }
    Ok(())
}

#[test]
fn values_become_tags(rt: HostRuntime) -> Result<(), Fail> {
    for row in TAGS.rows(rt.alloc())?.iter() {
        let graph = graph_in(rt.alloc(), *row)?;
        is_made(&rt, rt.alloc(), *row, &graph)?;
    }
    Ok(())
}

/// The length of a text that has 65,280 bytes in AMF 0.
const LENGTH: u32 = 65_277;

/// The texts of the array, which is marked and counted by 5 bytes in AMF 0.
const TEXTS: u32 = 257;

/// The array of one text 257 times and of so many nulls, which have one byte each.
fn long_array(alloc: Global, nulls: u8) -> Result<Rooted, Fail> {
    let count = U29::new((TEXTS + nulls as u32) * 2 + 1).ok_or("a number of 29 bits")?;
    let size = U29::new(LENGTH * 2 + 1).ok_or("a number of 29 bits")?;
    let mut bytes = vec![in alloc; 0x09]?;
    bytes.extend_from_slice(write_u29(count).as_slice())?;
    bytes.extend_from_slice(&[0x01, 0x06])?;
    bytes.extend_from_slice(write_u29(size).as_slice())?;
    for _ in 0..LENGTH {
        bytes.push(b'a')?;
    }
    for _ in 1..TEXTS {
        bytes.extend_from_slice(&[0x06, 0x00])?;
    }
    for _ in 0..nulls {
        bytes.push(0x01)?;
    }
    Ok(graph3(alloc, &bytes)?)
}

#[test]
fn data_have_as_many_bytes_as_their_size_says(rt: HostRuntime) -> Result<(), Fail> {
    let mut out = vec![in rt.alloc(); 0xAA]?;
    let made = meta_tag(rt.alloc(), &long_array(rt.alloc(), 237)?, &mut out);
    holds(&rt, made == Ok(()), "16,777,215 bytes of data");
    holds(&rt, out.len() == 16_777_231, "the bytes of the tag");
    let front = [0xAA, 0x12, 0xFF, 0xFF, 0xFF];
    holds(&rt, out.starts_with(&front), "the size");
    Ok(())
}

#[test]
fn longer_data_are_not_written(rt: HostRuntime) -> Result<(), Fail> {
    let mut out = vec![in rt.alloc(); 0xAA]?;
    let made = meta_tag(rt.alloc(), &long_array(rt.alloc(), 238)?, &mut out);
    holds(&rt, made == Err(MetaTagEnd::LongData), "too long");
    holds(
        &rt,
        out.as_slice() == [0xAA].as_slice(),
        "nothing is written",
    );
    Ok(())
}
