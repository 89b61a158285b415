ghost use Rattle.amf_graph.specs.Rooted.{content};
ghost use Rattle.amf0_spelling.specs.Lowered.{IsLowered};

use crate::amf3_write_tests::empty_tables;
use crate::checks::{bytes_of, field, holds, holds_in, is, number};
use amf_fixtures::{graph0, graph3};
use amf_graph::{Lack, LackKind, Rooted, WriteEnd};
use amf_test_rows::{Row, Table};
use amf_wire::{U29, write_u29};
use amf0_write::{first_lack0, lower, write_lowered0, write0, write0_part};
use std::alloc::Global;
use std::process::Abort;

/// The lowered graph, which is one (`lowering_is_lowered`).
fn lowered(rt: &impl Abort, alloc: Global, graph: &Rooted) -> Rooted
    ensures { IsLowered (content result) }
{
    match lower(alloc, graph) {
        Ok(low) => low,
        Err(_) => panic!(rt; "no memory"),
    }
}

/// Writes the lowered graph.
fn write_lowered(
    rt: &impl Abort,
    alloc: Global,
    graph: &Rooted,
    out: &mut Vec<u8>,
) -> Result<(), WriteEnd> {
    let low = lowered(rt, alloc, graph);
    write0(alloc, &low, out)
}

/// Writes the lowered graph's root as two parts, one after the other.
fn write_twice(
    rt: &impl Abort,
    alloc: Global,
    graph: &Rooted,
    out: &mut Vec<u8>,
) -> Result<(), WriteEnd> {
    let low = lowered(rt, alloc, graph);
    low.is_finished();
    let mut tables = empty_tables(rt, alloc);
    match write0_part(alloc, &low, low.root(), &mut tables, out) {
        Ok(()) => write0_part(alloc, &low, low.root(), &mut tables, out),
        Err(end) => Err(end),
    }
}

/// The format of a value and its bytes, and what is written of it behind a byte, or its least lack: `graph` whole, of the
/// lowered copy and without a copy, and `parts` where the root is written as two parts.
static WRITTEN: Table = Table {
    rows: 17,
    fields: 5,
    text: "
graph | 3 | 00 | AA 06 |
graph | 3 | 01 | AA 05 |
graph | 3 | 02 | AA 01 00 |
graph | 3 | 03 | AA 01 01 |
graph | 3 | 04 00 | AA 00 0000000000000000 |
graph | 3 | 04 05 | AA 00 4014000000000000 |
graph | 3 | 04 FFFFFFFF | AA 00 BFF0000000000000 |
graph | 3 | 05 3FF0000000000000 | AA 00 3FF0000000000000 |
# An array of a date, an XML document and a text.
graph | 3 | 09 07 01 08 01 3FF0000000000000 07 03'a' 06 03'a' | AA 0A 00000003 0B 3FF0000000000000 0000 0F 00000001'a' 02 0001'a' |
# An array of one array twice, which holds the first.
graph | 3 | 09 05 01 09 03 01 09 00 09 02 | AA 0A 00000002 0A 00000001 07 0000 07 0001 |
# Names in order.
graph | 3 | 09 01 03'b' 01 03'a' 03 00 00 01 | AA 08 00000003 0001'a' 0101 0001'b' 05 0001'b' 06 0000 09 |
# An object of class C with the sealed members s and one with no name, and the members s and m, of which the last is an
# object without a class whose one member is sealed.
graph | 3 | 0A 2B 03'C' 03's' 01 04 05 01 03's' 00 03'm' 0A 13 01 03's' 01 01 | AA 10 0001'C' 0000 05 0001'm' 03 0001's' 05 0000 09 0001's' 00 4014000000000000 0001's' 06 0000 09 |
# Three wrappers over 5, and one that wraps itself.
graph | 3 | 09 05 01 0A 07 37'flex.messaging.io.ArrayList' 0A 07 3B'flex.messaging.io.ObjectProxy' 0A 07 43'flex.messaging.io.ArrayCollection' 04 05 0A 01 0A 08 | AA 0A 00000002 00 4014000000000000 05 |
# An object of class C with a member that has no name.
graph | 0 | 10 0001'C' 0000 05 0001'm' 06 0000 09 | AA 10 0001'C' 0000 05 0001'm' 06 0000 09 |
# An array of a date twice, with XML between.
graph | 3 | 09 07 01 08 01 3FF0000000000000 0B 03'a' 08 02 | | Shared 1
parts | 3 | 09 03 01 01 | AA 0A 00000001 05 07 0000 |
parts | 3 | 08 01 3FF0000000000000 | | Shared 0
",
};

/// The value of a row.
fn graph_in(rt: &impl Abort, alloc: Global, row: Row<'_>) -> Rooted {
    let bytes = bytes_of(rt, alloc, row, 2);
    match number(rt, row, 1) {
        0 => graph0(alloc, &bytes).expect(rt, "a graph"),
        _ => graph3(alloc, &bytes).expect(rt, "a graph"),
    }
}

/// A lack, as its kind and its node.
fn lack_told(rt: &impl Abort, alloc: Global, end: WriteEnd) -> String {
    match end {
        WriteEnd::NoSpelling(lack) => {
            let Lack { kind, node } = lack;
            format!(in alloc; "{kind:?} {node}").expect(rt, "memory")
        }
        WriteEnd::Memory => panic!(rt; "no memory"),
    }
}

fn is_lacking(rt: &impl Abort, alloc: Global, row: Row<'_>, end: WriteEnd) {
    let told = lack_told(rt, alloc, end);
    is(rt, row, &told, field(rt, row, 4));
}

fn are_bytes(rt: &impl Abort, alloc: Global, row: Row<'_>, out: &[u8]) {
    let want = bytes_of(rt, alloc, row, 3);
    holds_in(rt, row, out == want.as_slice(), "what is written");
}

/// Compares what is written of the value of a row, behind a byte that was there, with what the row says.
fn is_written(rt: &impl Abort, alloc: Global, row: Row<'_>) {
    let graph = graph_in(rt, alloc, row);
    graph_is_written(rt, alloc, row, &graph);
    if field(rt, row, 0) == "graph" {
        is_written_without_copy(rt, alloc, row, &graph);
    }
}

fn graph_is_written(rt: &impl Abort, alloc: Global, row: Row<'_>, graph: &Rooted) {
    let mut out = vec![in alloc; 0xAA].expect(rt, "memory");
    let end = match field(rt, row, 0) {
        "parts" => write_twice(rt, alloc, graph, &mut out),
        _ => write_lowered(rt, alloc, graph, &mut out),
    };
    is_end(rt, alloc, row, end, &out);
}

fn is_written_without_copy(rt: &impl Abort, alloc: Global, row: Row<'_>, graph: &Rooted) {
    let mut out = vec![in alloc; 0xAA].expect(rt, "memory");
    let end = write_lowered0(alloc, graph, &mut out);
    is_end(rt, alloc, row, end, &out);
}

/// Compares how a writer ended, and what it wrote, with what the row says.
fn is_end(rt: &impl Abort, alloc: Global, row: Row<'_>, end: Result<(), WriteEnd>, out: &[u8]) {
    match end {
        Ok(()) => are_bytes(rt, alloc, row, out),
        Err(end) => is_lacking(rt, alloc, row, end),
    }
}

#[test]
fn writes_values(rt: HostRuntime) {
    for row in WRITTEN.rows(rt.alloc()).expect(&rt, "rows").iter() {
        is_written(&rt, rt.alloc(), *row);
    }
}

#[test]
fn an_array_lacks_nothing(rt: HostRuntime) {
    let graph = graph3(rt.alloc(), b"\x09\x03\x01\x01").expect(&rt, "a graph");
    let lack = first_lack0(rt.alloc(), &graph, 1).expect(&rt, "memory");
    holds(&rt, lack == None, "no lack");
}

fn put(rt: &impl Abort, bytes: &mut Vec<u8>, more: &[u8]) {
    bytes.extend_from_slice(more).expect(rt, "memory");
}

/// Puts a text of so many bytes.
fn put_text(rt: &impl Abort, bytes: &mut Vec<u8>, length: u32) {
    assert!(rt; length <= 65_536, "a long text");
    let size = U29::new(length * 2 + 1).expect(rt, "a number of 29 bits");
    put(rt, bytes, write_u29(size).as_slice());
    let end = bytes.len().saturating_add(length as usize);
    bytes.resize(end, b'a').expect(rt, "memory");
}

/// The graph of an array with a text of so many bytes as an item, and with one name.
fn named(rt: &impl Abort, alloc: Global, length: u32) -> Rooted {
    let mut bytes = Vec::new(alloc);
    put(rt, &mut bytes, b"\x09\x01");
    put_text(rt, &mut bytes, length);
    put(rt, &mut bytes, b"\x06\x00\x01");
    graph3(alloc, &bytes).expect(rt, "a graph")
}

/// How many bytes are written of such an array behind a byte that was there, or why none.
fn size_of_named(rt: &impl Abort, alloc: Global, length: u32) -> Result<usize, WriteEnd> {
    let graph = named(rt, alloc, length);
    let mut out = vec![in alloc; 0xAA].expect(rt, "memory");
    match write_lowered(rt, alloc, &graph, &mut out) {
        Ok(()) => Ok(out.len()),
        Err(end) => Err(end),
    }
}

#[test]
fn long_names_and_texts(rt: HostRuntime) {
    let size = size_of_named(&rt, rt.alloc(), 65_535);
    holds(
        &rt,
        size == Ok(1 + 5 + 2 + 65_535 + 3 + 65_535 + 3),
        "the size",
    );
    let long_name = WriteEnd::NoSpelling(Lack {
        kind: LackKind::LongName,
        node: 0,
    });
    let size = size_of_named(&rt, rt.alloc(), 65_536);
    holds(&rt, size == Err(long_name), "a long name");
}
