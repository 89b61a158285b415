use crate::checks::{bytes_of, is_text, layout_of};
use amf_io::{Cursor, MemorySource, ReadEnd};
use amf_json::{file_is_ready, file_json};
use amf_sol::{SharedObject, read_sol};
use amf_test_rows::{Row, Table};
use std::alloc::Global;
use std::process::Abort;

/// A layout, the length of a file, its version, its pairs and its text: in AMF 0 what is in AMF 3 is lowered; in AMF 3 one array
/// stands in two pairs.
static TEXTS: Table = Table {
    rows: 3,
    fields: 5,
    text: r#"
lines | 17 | 00 | 0001 'a' 01 01 00 | '{' 0a '  "amf": "sol",' 0a '  "name": "t",' 0a '  "pairs": {' 0a '    "a": true' 0a '  },' 0a '  "version": 0' 0a '}' 0a
compact | 18 | 00 | 0001 'a' 11 04 05 00 | '{"amf":"sol","name":"t","pairs":{"a":5},"version":0}' 0a
compact | 1c | 03 | 03'b' 09 01 01 00 03'a' 09 00 00 | '{"amf":"sol","name":"t","nodes":{"1":[]},"pairs":{"a":{"$node":"1"},"b":{"$node":"1"}},"version":3}' 0a
"#,
};

/// Appends the bytes of a field.
fn push(rt: &impl Abort, alloc: Global, row: Row<'_>, place: usize, bytes: &mut Vec<u8>) {
    let more = bytes_of(rt, alloc, row, place);
    bytes.extend_from_slice(&more).expect(rt, "memory");
}

/// The file of a row, whose name is "t".
fn file(rt: &impl Abort, alloc: Global, row: Row<'_>) -> Vec<u8> {
    let mut bytes = b"\x00\xBF\0\0\0".to_vec(alloc).expect(rt, "memory");
    push(rt, alloc, row, 1, &mut bytes);
    bytes
        .extend_from_slice(b"TCSO\x00\x04\0\0\0\0\x00\x01t\0\0\0")
        .expect(rt, "memory");
    push(rt, alloc, row, 2, &mut bytes);
    push(rt, alloc, row, 3, &mut bytes);
    bytes
}

/// What is read of these bytes.
fn read_of(alloc: Global, bytes: &[u8]) -> Result<SharedObject, ReadEnd> {
    let mut source = MemorySource::new(alloc, bytes, 100, 0, &[])?;
    let mut cursor = Cursor::new(alloc, &mut source, 200)?;
    read_sol(alloc, &mut cursor)
}

fn is_told(rt: &impl Abort, alloc: Global, row: Row<'_>, file: &SharedObject) {
    file_is_ready(file);
    let text = file_json(alloc, layout_of(rt, row), file);
    is_text(rt, alloc, row, 4, &text.expect(rt, "memory"));
}

/// Reads the file of a row, and compares its text.
fn tells(rt: &impl Abort, alloc: Global, row: Row<'_>) {
    let bytes = file(rt, alloc, row);
    let file = read_of(alloc, &bytes).expect(rt, "a file");
    is_told(rt, alloc, row, &file);
}

#[test]
fn tells_files(rt: HostRuntime) {
    for row in TEXTS.rows(rt.alloc()).expect(&rt, "rows").iter() {
        tells(&rt, rt.alloc(), *row);
    }
}
