use crate::checks::{bytes_of, field, holds, is, number};
use amf_fixtures::{Reading, graph0, graph3, told_texts3, told0, told3};
use amf_graph::{NodeId, NodeView, Rooted, Value};
use amf_io::{faults_are_first, next_kind_is_fixed, one_verdict, reading_decides, reading_waits};
use amf_test_rows::{Row, Table};
use amf3_read::{Values3, pairs_have_one_verdict, texts_have_one_verdict};
use std::alloc::Global;
use std::process::Abort;

/// The version of AMF and bytes, and the value that they are, in AMF 0 with its form, or the reason and the place for which
/// they are refused.
static READ: Table = Table {
    rows: 56,
    fields: 3,
    text: "
# AMF 3.
3 | 00 | Undefined
3 | 03 | Bool true
3 | 04 C0808000 | Integer -268435456
3 | 05 4014000000000000 | Double 4014000000000000
3 | 06 8001 | Text 0
3 | 09 03 01 09 00 | Node 0
3 | 11 03 00 04 01 06 03'a' | Node 0
3 | 0D 03 01 FFFFFFFE | Node 0
# Nodes of the table can be named more than once.
3 | 09 05 01 0C 01 09 07 01 0C 02 0C 02 09 00 | Node 0
3 | 09 03 01 09 03 01 09 01 01 | Node 0
3 | 09 03 01 09 03 01 0C 01 | Node 0
# Refused.
3 | | Truncated 0
3 | 12 | BadMarker 0
3 | 09 00 | BadReference 1
3 | 09 03 01 09 02 | BadReference 4
3 | 09 03 01 0A 00 | WrongKind 4
3 | 0A 01 | BadTraits 1
3 | 06 02 | BadTextIndex 1
3 | 06 03 FF | BadText 2
3 | 06 07 66 | Truncated 2
3 | 0A 07 07 66 | UnknownExternal 2
3 | 04 80 | Truncated 1
3 | 0D 03 01 FF | Truncated 3
# AMF 0.
0 | 00 4014000000000000 | Double 4014000000000000 Plain
0 | 01 02 | Bool true Plain
0 | 02 0001'a' | Text 0 Plain
0 | 05 | Null Plain
0 | 06 | Undefined Plain
0 | 0D | Undefined Plain
0 | 0C 00000000 | Text 0 Plain
0 | 03 0000 09 | Node 0 Plain
0 | 03 0001'a' 05 0000 09 | Node 0 Plain
# The member with the empty name.
0 | 03 0000 05 0000 09 | Node 0 Plain
0 | 08 00000009 0001'a' 05 0000 09 | Node 0 Plain
0 | 0A 00000001 07 0000 | Node 0 Plain
0 | 0B 0000000000000000 FFFF | Node 0 Plain
0 | 0F 00000001'a' | Node 0 Plain
0 | 10 0001'C' 0001'a' 05 0000 09 | Node 0 Plain
0 | 11 04 05 | Integer 5 Amf3
0 | 0A 00000001 11 04 05 | Node 0 Call
0 | 0A 00000002 11 04 05 11 01 | Node 0 Amf3
0 | 0A 00000001 0A 00000001 11 01 | Node 0 Amf3
0 | 0A 00000000 | Node 0 Plain
# One set of tables for all values in AMF 3.
0 | 0A 00000002 11 09 01 01 11 09 00 | Node 0 Amf3
# Refused.
0 | | Truncated 0
0 | 04 | BadMarker 0
0 | 09 | BadMarker 0
0 | 0E | BadMarker 0
0 | 12 | BadMarker 0
0 | 07 0000 | BadReference 0
0 | 0A 00000001 07 0001 | BadReference 6
0 | 03 0001'a' 09 | BadMarker 4
0 | 02 0001 FF | BadText 3
0 | 0A 00000001 11 12 | BadMarker 6
0 | 0A 000000 | Truncated 1
0 | 02 0003'a' | Truncated 3
",
};

/// Compares what is read of bytes, in the version of the first field of a row, with what the row says.
fn is_read_as(rt: &impl Abort, alloc: Global, row: Row<'_>, bytes: &[u8], reading: &Reading<'_>) {
    let told = match number(rt, row, 0) {
        0 => told0(alloc, bytes, reading).expect(rt, "memory"),
        _ => told3(alloc, bytes, reading).expect(rt, "memory"),
    };
    is(rt, row, &told, field(rt, row, 2));
}

/// Reads bytes a byte at a time, and in two pieces that meet at each place.
fn is_read_in_any_pieces(rt: &impl Abort, alloc: Global, row: Row<'_>) {
    let bytes = bytes_of(rt, alloc, row, 1);
    is_read_as(rt, alloc, row, &bytes, &Reading::by_bytes(20));
    for cut in 0..=bytes.len() {
        is_read_as(rt, alloc, row, &bytes, &Reading::cut_at(20, cut));
    }
}

#[test]
fn reads_or_refuses_in_any_pieces(rt: HostRuntime) {
    for row in READ.rows(rt.alloc()).expect(&rt, "rows").iter() {
        is_read_in_any_pieces(&rt, rt.alloc(), *row);
    }
}

/// A version, what stands within arrays, and what is read of all; how many arrays there are, and how each begins.
static WITHIN: Table = Table {
    rows: 4,
    fields: 5,
    text: "
3 | 01 | Node 0 | 500000 | 09 03 01
3 | | Truncated 1500000 | 500000 | 09 03 01
3 | 12 | BadMarker 1500000 | 500000 | 09 03 01
0 | 05 | Node 0 Plain | 100000 | 0A 00000001
",
};

/// The arrays of a row within one another, and then what stands within them.
fn nested(rt: &impl Abort, alloc: Global, row: Row<'_>) -> Vec<u8> {
    let begin = bytes_of(rt, alloc, row, 4);
    let inside = bytes_of(rt, alloc, row, 1);
    let mut bytes = Vec::new(alloc);
    for _ in 0..number(rt, row, 3) {
        bytes.extend_from_slice(&begin).expect(rt, "memory");
    }
    bytes.extend_from_slice(&inside).expect(rt, "memory");
    bytes
}

/// More nodes within one another than a stack of calls has room for.
#[test]
fn reads_very_many_nodes_within_nodes(rt: HostRuntime) {
    for row in WITHIN.rows(rt.alloc()).expect(&rt, "rows").iter() {
        let bytes = nested(&rt, rt.alloc(), *row);
        is_read_as(
            &rt,
            rt.alloc(),
            *row,
            &bytes,
            &Reading::cut_at(3_000_000, 0),
        );
    }
}

/// A version and bytes, with what is read of them a byte at a time, the limit, and the reads that fail.
static ENDS: Table = Table {
    rows: 21,
    fields: 5,
    text: "
3 | 06 05 'aa' | ReadFault | 20 | 3
3 | 06 05 'aa' | TooLarge 2 | 3 |
# A fault is no end of the input.
3 | 09 | ReadFault | 1000 | 1
# An array of a text in AMF 0.
0 | 0A 00000001 02 0001'a' | TooLarge 0 | 0 |
0 | 0A 00000001 02 0001'a' | TooLarge 1 | 1 |
0 | 0A 00000001 02 0001'a' | TooLarge 1 | 2 |
0 | 0A 00000001 02 0001'a' | TooLarge 1 | 3 |
0 | 0A 00000001 02 0001'a' | TooLarge 1 | 4 |
0 | 0A 00000001 02 0001'a' | TooLarge 5 | 5 |
0 | 0A 00000001 02 0001'a' | TooLarge 6 | 6 |
0 | 0A 00000001 02 0001'a' | TooLarge 6 | 7 |
0 | 0A 00000001 02 0001'a' | TooLarge 8 | 8 |
0 | 0A 00000001 02 0001'a' | ReadFault | 20 | 0
0 | 0A 00000001 02 0001'a' | ReadFault | 20 | 1
0 | 0A 00000001 02 0001'a' | ReadFault | 20 | 2
0 | 0A 00000001 02 0001'a' | ReadFault | 20 | 3
0 | 0A 00000001 02 0001'a' | ReadFault | 20 | 4
0 | 0A 00000001 02 0001'a' | ReadFault | 20 | 5
0 | 0A 00000001 02 0001'a' | ReadFault | 20 | 6
0 | 0A 00000001 02 0001'a' | ReadFault | 20 | 7
0 | 0A 00000001 02 0001'a' | ReadFault | 20 | 8
",
};

fn ends_as(rt: &impl Abort, alloc: Global, row: Row<'_>) {
    let bytes = bytes_of(rt, alloc, row, 1);
    let failing = row.numbers(alloc, 4).expect(rt, "numbers");
    let reading = Reading {
        limit: number(rt, row, 3),
        most: 1,
        cut: 0,
        failing: &failing,
    };
    is_read_as(rt, alloc, row, &bytes, &reading);
}

#[test]
fn ends_by_fault_and_limit(rt: HostRuntime) {
    for row in ENDS.rows(rt.alloc()).expect(&rt, "rows").iter() {
        ends_as(&rt, rt.alloc(), *row);
    }
}

/// Bytes of two texts, and which they are, or why there is no second.
static TEXTS: Table = Table {
    rows: 7,
    fields: 2,
    text: "
# By its index, and inline again.
05'ab' 00 | Text 0, Text 0
05'ab' 05'ab' | Text 0, Text 1
# The empty text enters no table.
01 03'a' | Text 0, Text 1
# Refused.
03'a' 02 | Text 0, BadTextIndex 2
01 00 | Text 0, BadTextIndex 1
03'a' 03 FF | Text 0, BadText 3
03'a' 05'a' | Text 0, Truncated 3
",
};

fn are_texts(rt: &impl Abort, alloc: Global, row: Row<'_>) {
    let bytes = bytes_of(rt, alloc, row, 0);
    let told = told_texts3(alloc, &bytes).expect(rt, "memory");
    is(rt, row, &told, field(rt, row, 1));
}

#[test]
fn reads_texts_alone(rt: HostRuntime) {
    for row in TEXTS.rows(rt.alloc()).expect(&rt, "rows").iter() {
        are_texts(&rt, rt.alloc(), *row);
    }
}

/// The class of the object that is the root, whether it may have further members, and how many sealed and further ones it
/// has.
fn class_of(graph: &Rooted) -> Option<(&[u8], bool, usize, usize)> {
    graph.is_finished();
    let Value::Node(node) = graph.root() else {
        return None;
    };
    let NodeView::Object {
        traits,
        members,
        ..
    } = graph.node(node)
    else {
        return None;
    };
    let view = graph.traits(traits);
    let (sealed, further) = (view.sealed.len(), members.len());
    Some((graph.text(view.class), view.dynamic, sealed, further))
}

const NODE: Value = Value::Node(NodeId(0));

/// The root is an object of class C, which may have further members, and has so many.
fn is_an_object(rt: &impl Abort, graph: &Rooted, members: (usize, usize)) {
    holds(rt, graph.root() == NODE, "the root");
    let (class, dynamic, sealed, further) = class_of(graph).expect(rt, "an object");
    holds(rt, class == b"C".as_slice(), "the class");
    holds(rt, dynamic, "further members");
    holds(rt, (sealed, further) == members, "how many members");
}

/// An object of class C, with the sealed name a and the member b, which is the object itself.
const AN_OBJECT3: &[u8] = b"\x0A\x1B\x03C\x03a\x04\x05\x03b\x0A\x00\x01";

/// The sealed values of the root, and its member with its name, if it is an object with one.
fn parts_of(graph: &Rooted) -> Option<(&[Value], &[u8], Value)> {
    graph.is_finished();
    let Value::Node(node) = graph.root() else {
        return None;
    };
    match graph.node(node) {
        NodeView::Object {
            sealed,
            members,
            ..
        } if members.len() == 1 => { Some((sealed, graph.text(members[0].0), members[0].1)) }
        _ => None,
    }
}

fn has_its_parts(rt: &impl Abort, graph: &Rooted) {
    let (sealed, name, value) = parts_of(graph).expect(rt, "an object");
    let values = [Value::Integer(5)];
    holds(rt, sealed == values.as_slice(), "the sealed values");
    holds(rt, name == b"b".as_slice(), "the name");
    holds(rt, value == NODE, "the member");
}

#[test]
fn builds_what_it_reads(rt: HostRuntime) {
    let graph = graph3(rt.alloc(), AN_OBJECT3).expect(&rt, "a graph");
    is_an_object(&rt, &graph, (1, 1));
    has_its_parts(&rt, &graph);
}

/// An object of class C with an empty name, and a name whose value is an array of the object and null.
const AN_OBJECT0: &[u8] = b"\x10\x00\x01C\x00\x00\x05\x00\x01a\
    \x0A\x00\x00\x00\x02\x07\x00\x00\x05\x00\x00\x09";

#[test]
fn keeps_names_classes_and_items(rt: HostRuntime) {
    let graph = graph0(rt.alloc(), AN_OBJECT0).expect(&rt, "a graph");
    is_an_object(&rt, &graph, (0, 2));
}

#[test]
fn laws_hold_of_the_values(_rt: HostRuntime) {
    one_verdict::<Values3>();
    faults_are_first::<Values3>();
    next_kind_is_fixed::<Values3>();
    reading_decides::<Values3>();
    reading_waits::<Values3>();
    pairs_have_one_verdict();
    texts_have_one_verdict();
}
