use crate::checks::{bytes_of, holds};
use amf_fixtures::graph0;
use amf_show::show;
use amf_test_rows::{Row, Table};
use std::alloc::Global;
use std::process::Abort;

/// Bytes of the first object of a class, of each later one, and their line behind the number.
static CLASSES: Table = Table {
    rows: 10,
    fields: 3,
    text: "
0A 1B 01 03'b' 03 03'a' 04 07 01 | 0A 01 03 03'a' 04 07 01 | ' object \"\" sealed {\"b\"=true} dynamic {\"a\"=7}' 0A
0A 23 03'x' 03 22 03'q' 01 02 | 0A 05 01 02 | ' object \"x\" sealed {\"\\22\"=null, \"q\"=false}' 0A
# The first node is the array that holds them.
0A 13 03'c' 03'p' 09 00 | 0A 09 09 00 | ' object \"c\" sealed {\"p\"=#0}' 0A
0A 0B 03'd' 01 | 0A 0D 01 | ' object \"d\" sealed {} dynamic {}' 0A
0A 03 03'e' | 0A 11 | ' object \"e\" sealed {}' 0A
0A 03 03'f' | 0A 15 | ' object \"f\" sealed {}' 0A
0A 03 03'g' | 0A 19 | ' object \"g\" sealed {}' 0A
0A 03 03'h' | 0A 1D | ' object \"h\" sealed {}' 0A
# A ninth class and a tenth.
0A 1B 03'i' 03'b' 02 03'a' 01 01 | 0A 21 02 03'a' 01 01 | ' object \"i\" sealed {\"b\"=false} dynamic {\"a\"=null}' 0A
0A 13 03'j' 03'p' 06 03's' | 0A 25 06 03's' | ' object \"j\" sealed {\"p\"=\"s\"}' 0A
",
};

/// How often each class has its turn: 70 objects are more than the first 64 nodes.
const TURNS: u32 = 7;

fn push_field(rt: &impl Abort, alloc: Global, row: Row<'_>, place: usize, out: &mut Vec<u8>) {
    let bytes = bytes_of(rt, alloc, row, place);
    out.extend_from_slice(&bytes).expect(rt, "memory");
}

fn push_number(rt: &impl Abort, alloc: Global, number: u32, out: &mut Vec<u8>) {
    let text = format!(in alloc; "#{number}").expect(rt, "memory");
    out.extend_from_slice(text.as_bytes()).expect(rt, "memory");
}

/// An array of 70 objects, whose classes take turns.
fn push_objects(rt: &impl Abort, alloc: Global, rows: &[Row<'_>], out: &mut Vec<u8>) {
    out.extend_from_slice(b"\x11\x09\x81\x0D\x01")
        .expect(rt, "memory");
    for turn in 0..TURNS {
        let place = if turn == 0 { 0 } else { 1 };
        for row in rows.iter() {
            push_field(rt, alloc, *row, place, out);
        }
    }
}

/// The lines of the root and of the array.
fn push_array_lines(rt: &impl Abort, alloc: Global, out: &mut Vec<u8>) {
    out.extend_from_slice(b"root #0\n#0 array [#1")
        .expect(rt, "memory");
    for number in 2..71_u32 {
        out.extend_from_slice(b", ").expect(rt, "memory");
        push_number(rt, alloc, number, out);
    }
    out.extend_from_slice(b"] {}\n").expect(rt, "memory");
}

/// The lines of the objects.
fn push_object_lines(rt: &impl Abort, alloc: Global, rows: &[Row<'_>], out: &mut Vec<u8>) {
    let mut number = 0_u32;
    for _ in 0..TURNS {
        for row in rows.iter() {
            number = number.wrapping_add(1);
            push_number(rt, alloc, number, out);
            push_field(rt, alloc, *row, 2, out);
        }
    }
}

#[test]
fn shows_many_objects(rt: HostRuntime) {
    let alloc = rt.alloc();
    let rows = CLASSES.rows(alloc).expect(&rt, "rows");
    let mut bytes = Vec::new(alloc);
    push_objects(&rt, alloc, &rows, &mut bytes);
    let mut want = Vec::new(alloc);
    push_array_lines(&rt, alloc, &mut want);
    push_object_lines(&rt, alloc, &rows, &mut want);
    let graph = graph0(alloc, &bytes).expect(&rt, "a graph");
    let mut out = Vec::new(alloc);
    show(alloc, &graph, &mut out).expect(&rt, "memory");
    holds(&rt, out.as_slice() == want.as_slice(), "the listing");
}
