use amf_test_rows::{Row, Table};
use amf_text_read::hex_bytes;
use std::alloc::Global;
use std::process::Abort;

/// Hexadecimal digits, and the bytes that they are.
static BYTES: Table = Table {
    rows: 4,
    fields: 2,
    text: r"
00af   | 00 AF
00AF   | 00 AF
eda080 | ED A0 80
       |
",
};

/// What is no pairs of hexadecimal digits.
static NO_BYTES: Table = Table {
    rows: 3,
    fields: 1,
    text: r"
0
0g
0x00
",
};

fn reads(rt: &impl Abort, alloc: Global, row: Row<'_>) {
    let line = row.line();
    let digits = row.field(0).expect(rt, "digits");
    let bytes = row.bytes(alloc, 1).expect(rt, "bytes");
    let read = hex_bytes(alloc, digits).expect(rt, "memory");
    let right = match &read {
        Some(read) => read.as_slice() == bytes.as_slice(),
        None => false,
    };
    assert!(rt; right, "line {line}");
}

fn reads_none(rt: &impl Abort, alloc: Global, row: Row<'_>) {
    let line = row.line();
    let digits = row.field(0).expect(rt, "digits");
    let read = hex_bytes(alloc, digits).expect(rt, "memory");
    assert!(rt; read.is_none(), "line {line}");
}

#[test]
fn reads_hexadecimal_digits(rt: HostRuntime) {
    for row in BYTES.rows(rt.alloc()).expect(&rt, "rows").iter() {
        reads(&rt, rt.alloc(), *row);
    }
    for row in NO_BYTES.rows(rt.alloc()).expect(&rt, "rows").iter() {
        reads_none(&rt, rt.alloc(), *row);
    }
}
