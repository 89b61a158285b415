use crate::checks::{bytes_of, field, holds, is, number};
use amf_fixtures::{graph0, rooted_at};
use amf_graph::Rooted;
use amf_sol::{
    SharedObject, SolEnd, SolVersion, file_faults_are_first, files_fix_fields, files_fix_next_kind,
    files_have_holders, files_have_one_verdict, worked_files,
};
use amf_test_rows::{Row, Table};
use amf_wire::Name;
use std::alloc::Global;
use std::process::Abort;

#[test]
fn facts_and_laws_stand(_rt: HostRuntime) {
    worked_files();
    files_have_one_verdict();
    files_fix_fields();
    files_fix_next_kind();
    file_faults_are_first();
    files_have_holders();
}

/// A graph in AMF 0, the node that is the root, a version, and why it is no holder.
static HOLDERS: Table = Table {
    rows: 5,
    fields: 4,
    text: "
# An object without a class that has one member, an array.
03 0000 0A 00000000 0000 09 | 0 | 0 | made
# The same of a class.
10 0001'C' 0001'C' 0A 00000000 0000 09 | 0 | 0 | NotAHolder
# An array of an object that has no members and is not dynamic, which is node 1, and of an array.
11 09 05 01 0A 03 01 09 01 01 | 1 | 0 | NotAHolder
# An object whose member is an array that holds the object.
03 0000 0A 00000001 07 0000 0000 09 | 0 | 0 | NotAHolder
0A 00000000 | 0 | 3 | NotAHolder
",
};

/// The version that is a number of a row.
pub(crate) fn version_in(rt: &impl Abort, row: Row<'_>, place: usize) -> SolVersion {
    match number(rt, row, place) {
        0 => SolVersion::Amf0,
        3 => SolVersion::Amf3,
        _ => panic!(rt; "no version"),
    }
}

/// Why no shared object of this name and holder is made, unless it is made.
fn end_of(
    rt: &impl Abort,
    alloc: Global,
    name: &[u8],
    version: SolVersion,
    holder: Rooted,
) -> Option<SolEnd> {
    let name = Name::from_bytes(alloc, name).expect(rt, "a name");
    SharedObject::new(alloc, name, version, holder).err()
}

fn holder_in(rt: &impl Abort, alloc: Global, row: Row<'_>) -> Rooted {
    let bytes = bytes_of(rt, alloc, row, 0);
    let whole = graph0(alloc, &bytes).expect(rt, "a graph");
    rooted_at(whole, number(rt, row, 1)).expect(rt, "a node")
}

fn is_made(rt: &impl Abort, alloc: Global, row: Row<'_>) {
    let version = version_in(rt, row, 2);
    let told = match end_of(rt, alloc, b"t", version, holder_in(rt, alloc, row)) {
        None => "made",
        Some(SolEnd::NotAHolder) => "NotAHolder",
        Some(_) => "another end",
    };
    is(rt, row, told, field(rt, row, 3));
}

#[test]
fn only_holders_are_taken(rt: HostRuntime) {
    for row in HOLDERS.rows(rt.alloc()).expect(&rt, "rows").iter() {
        is_made(&rt, rt.alloc(), *row);
    }
}

/// An object without a class that has one member, an array.
const HOLDER: &[u8] = b"\x03\0\0\x0A\0\0\0\0\0\0\x09";

fn holder(rt: &impl Abort, alloc: Global) -> Rooted {
    graph0(alloc, HOLDER).expect(rt, "a graph")
}

/// Why there is no shared object with a name of so many letters.
fn long_name(rt: &impl Abort, alloc: Global, length: usize) -> Option<SolEnd> {
    let name = vec![in alloc; 0x61_u8; length].expect(rt, "memory");
    end_of(rt, alloc, &name, SolVersion::Amf0, holder(rt, alloc))
}

#[test]
fn names_have_a_longest(rt: HostRuntime) {
    for (length, end) in [(65_535, None), (65_536, Some(SolEnd::LongName))] {
        holds(
            &rt,
            long_name(&rt, rt.alloc(), length) == end,
            "a long name",
        );
    }
}

fn shared_object(rt: &impl Abort, alloc: Global, version: SolVersion) -> SharedObject {
    let name = Name::from_bytes(alloc, b"t").expect(rt, "a name");
    SharedObject::new(alloc, name, version, holder(rt, alloc)).expect(rt, "a holder")
}

#[test]
fn a_shared_object_shows_its_parts(rt: HostRuntime) {
    for version in [SolVersion::Amf0, SolVersion::Amf3] {
        let made = shared_object(&rt, rt.alloc(), version);
        holds(&rt, made.name().as_bytes() == b"t".as_slice(), "the name");
        holds(&rt, made.version() == version, "the version");
        holds(&rt, made.holder().node_count() == 2, "the holder");
    }
}
