use crate::checks::{bytes_of, field, holds, holds_in, is};
use crate::sol_tests::version_in;
use amf_fixtures::graph0;
use amf_graph::{Lack, LackKind, Rooted, WriteEnd};
use amf_sol::{SharedObject, SolVersion, files_or_lacks, write_sol};
use amf_test_rows::{Row, Table};
use amf_wire::Name;
use std::alloc::Global;
use std::process::Abort;

/// Versions and holders in AMF 0, with what is written behind a byte of files with the name t, and how that ends.
static FILES: Table = Table {
    rows: 5,
    fields: 4,
    text: "
# `{a: true}`.
0 | 11 0A 0B 01 03'a' 03 01 | AA 00BF 00000017'TCSO' 0004 00000000 0001't' 00000000 0001'a' 0101 00 | written
# Pairs in no order, two of them of one array: the empty array under `a` and `b`, the text `b` under the empty name, and 5
# under `c`.
0 | 03 0001'c' 11 04 05 0001'b' 0A 00000000 0000 02 0001'b' 0001'a' 07 0001 0000 09 | AA 00BF 00000035'TCSO' 0004 00000000 0001't' 00000000 0000 02 0001'b' 00 0001'a' 0A 00000000 00 0001'b' 07 0000 00 0001'c' 00 4014000000000000 00 | written
3 | 03 0001'c' 11 04 05 0001'b' 0A 00000000 0000 02 0001'b' 0001'a' 07 0001 0000 09 | AA 00BF 00000025'TCSO' 0004 00000000 0001't' 00000003 01 06 03'b' 00 03'a' 09 01 01 00 00 09 00 00 03'c' 04 05 00 | written
# Two pairs of one date, and an array with an empty name: the first lack, and nothing written.
0 | 03 0001'b' 08 00000000 0000 11 08 01 0000000000000000 0000 09 0001'a' 11 08 00 0000 09 | AA | Shared 1
3 | 03 0001'b' 08 00000000 0000 11 08 01 0000000000000000 0000 09 0001'a' 11 08 00 0000 09 | AA | EmptyName 2
",
};

/// Writes the shared object with this holder.
fn write(
    rt: &impl Abort,
    alloc: Global,
    version: SolVersion,
    holder: Rooted,
    out: &mut Vec<u8>,
) -> Result<(), WriteEnd> {
    let name = Name::from_bytes(alloc, b"t").expect(rt, "a name");
    let object = SharedObject::new(alloc, name, version, holder).expect(rt, "a holder");
    write_sol(alloc, &object, out)
}

/// How a writing ended: a lack by its kind and its node.
fn end_told(rt: &impl Abort, alloc: Global, end: Result<(), WriteEnd>) -> String {
    match end {
        Ok(()) => format!(in alloc; "written").expect(rt, "memory"),
        Err(WriteEnd::NoSpelling(lack)) => {
            let Lack { kind, node } = lack;
            format!(in alloc; "{kind:?} {node}").expect(rt, "memory")
        }
        Err(WriteEnd::Memory) => panic!(rt; "no memory"),
    }
}

fn ends_as(rt: &impl Abort, alloc: Global, row: Row<'_>, end: Result<(), WriteEnd>) {
    let told = end_told(rt, alloc, end);
    is(rt, row, &told, field(rt, row, 3));
}

fn are_bytes(rt: &impl Abort, alloc: Global, row: Row<'_>, out: &[u8]) {
    let want = bytes_of(rt, alloc, row, 2);
    holds_in(rt, row, out == want.as_slice(), "what is written");
}

fn holder_in(rt: &impl Abort, alloc: Global, row: Row<'_>) -> Rooted {
    let bytes = bytes_of(rt, alloc, row, 1);
    graph0(alloc, &bytes).expect(rt, "a graph")
}

/// Compares what is written of the holder of a row behind a byte that was there, and how that ended.
fn is_written(rt: &impl Abort, alloc: Global, row: Row<'_>) {
    let mut out = vec![in alloc; 0xAA].expect(rt, "memory");
    let version = version_in(rt, row, 0);
    let end = write(rt, alloc, version, holder_in(rt, alloc, row), &mut out);
    ends_as(rt, alloc, row, end);
    are_bytes(rt, alloc, row, &out);
}

#[test]
fn pairs_by_name_over_one_set_of_tables(rt: HostRuntime) {
    files_or_lacks();
    for row in FILES.rows(rt.alloc()).expect(&rt, "rows").iter() {
        is_written(&rt, rt.alloc(), *row);
    }
}

/// A holder of one pair, which is true, with a name of so many letters, which is the size that these bytes say.
fn one_true(rt: &impl Abort, alloc: Global, length: usize, size: &[u8]) -> Rooted {
    let mut bytes = b"\x11\x0A\x0B\x01".to_vec(alloc).expect(rt, "memory");
    bytes.extend_from_slice(size).expect(rt, "memory");
    bytes
        .resize(bytes.len().saturating_add(length), b'a')
        .expect(rt, "memory");
    bytes.extend_from_slice(b"\x03\x01").expect(rt, "memory");
    graph0(alloc, &bytes).expect(rt, "a graph")
}

/// How the writing of a holder with a long name ends.
fn long_name(
    rt: &impl Abort,
    alloc: Global,
    version: SolVersion,
    length: usize,
    size: &[u8],
) -> Result<(), WriteEnd> {
    let mut out = Vec::new(alloc);
    write(
        rt,
        alloc,
        version,
        one_true(rt, alloc, length, size),
        &mut out,
    )
}

#[test]
fn long_names_of_pairs(rt: HostRuntime) {
    let too_long = WriteEnd::NoSpelling(Lack {
        kind: LackKind::LongName,
        node: 0,
    });
    for (version, length, size, wanted) in [
        (SolVersion::Amf0, 65_535, b"\x87\xFF\x7F", Ok(())),
        (SolVersion::Amf0, 65_536, b"\x88\x80\x01", Err(too_long)),
        (SolVersion::Amf3, 65_536, b"\x88\x80\x01", Ok(())),
    ] {
        let end = long_name(&rt, rt.alloc(), version, length, size);
        holds(&rt, end == wanted, "a long name");
    }
}
