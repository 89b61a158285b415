ghost use Rattle.flv_meta.specs.FileAnswers.{IsStoredTag};

use crate::checks::is;
use amf_io::{Cursor, MemorySource};
use amf_test_rows::{Row, Table};
use flv_meta::{MetaEnd, Tag, metadata, next_tag, read_head};
use std::alloc::Global;
use std::process::Abort;
use std::test::Fail;

/// The type of a tag with its time and stream, its data, and the root of its metadata or why they are refused. The tag stands
/// behind a head, so it begins at 13, and the value in its data at 37.
static DATA: Table = Table {
    rows: 27,
    fields: 3,
    text: "
12 00000000 000000 | 02000A'onMetaData' 05 | Null
12 00000000 000000 | 02000A'onMetaData' 0101 | Bool(true)
12 00000000 000000 | 02000A'onMetaData' 020001'a' | Text(TextId(0))
12 00000000 000000 | 02000A'onMetaData' 08 00000001 0005'width' 02 0001'x' 000009 | Node(NodeId(0))
12 00000000 000000 | 02000A'onMetaData' 0A 00000002 05 07 0000 | Node(NodeId(0))
# AMF 3 behind its marker.
12 00000000 000000 | 02000A'onMetaData' 11 04 05 | Integer(5)
# Another time and another stream.
12 00000102 030405 | 02000A'onMetaData' 05 | Null
# What stands behind the value counts for nothing.
12 00000000 000000 | 02000A'onMetaData' 05 000009 | Null
12 00000000 000000 | 02000A'onMetaData' 05 FFFFFFFF | Null
# Other types, another name, another kind of name, and a name that is cut.
08 00000000 000000 | 02000A'onMetaData' 05 |
13 00000000 000000 | 02000A'onMetaData' 05 |
32 00000000 000000 | 02000A'onMetaData' 05 |
12 00000000 000000 | 02000A'onTextData' 05 |
12 00000000 000000 | 020009'onMetaDat' 05 |
12 00000000 000000 | 0C0000000A'onMetaData' 05 |
12 00000000 000000 | 02000A'onMetaDat' |
12 00000000 000000 | 02000A |
12 00000000 000000 | |
# No value, a value that goes past its tag, and values that are none.
12 00000000 000000 | 02000A'onMetaData' | Truncated 37
12 00000000 000000 | 02000A'onMetaData' 00 3FF000000000 | Truncated 38
12 00000000 000000 | 02000A'onMetaData' 02 0005'ab' | Truncated 40
12 00000000 000000 | 02000A'onMetaData' 08 00000001 0005'width' 00 3FF0000000000000 | Truncated 58
12 00000000 000000 | 02000A'onMetaData' 04 | BadMarker 37
12 00000000 000000 | 02000A'onMetaData' 09 | BadMarker 37
12 00000000 000000 | 02000A'onMetaData' 02 0001 FF | BadText 40
12 00000000 000000 | 02000A'onMetaData' 0A 00000001 07 0001 | BadReference 43
12 00000000 000000 | 02000A'onMetaData' 11 12 | BadMarker 38
",
};

/// A file of one tag. No data here have 256 bytes.
fn file_of(alloc: Global, front: &[u8], data: &[u8]) -> Result<Vec<u8>, Fail> {
    let size = u8::try_from(data.len())?;
    let mut file = Vec::new(alloc);
    file.extend_from_slice(b"FLV\x01\x05\0\0\0\x09\0\0\0\0")?;
    file.extend_from_slice(front.get(..1).ok_or("a type")?)?;
    file.extend_from_slice(&[0, 0, size])?;
    file.extend_from_slice(front.get(1..).ok_or("a time")?)?;
    file.extend_from_slice(data)?;
    file.extend_from_slice(&(size as u32 + 11).to_be_bytes())?;
    Ok(file)
}

/// The root of the metadata of a tag, or why they are refused.
fn value_told(alloc: Global, tag: &Tag) -> Result<String, Fail>
    requires { IsStoredTag tag.now }
{
    match metadata(alloc, tag) {
        Ok(Some(graph)) => {
            let root = graph.root();
            Ok(format!(in alloc; "{root:?}")?)
        }
        Ok(None) => Ok(String::new(alloc)),
        Err(MetaEnd::Refused(refusal)) => {
            let reason = refusal.reason;
            let at = refusal.at;
            Ok(format!(in alloc; "{reason:?} {at}")?)
        }
        Err(MetaEnd::Memory) => Err("no memory")?,
    }
}

/// What is told of the metadata of the first tag.
fn first_told(alloc: Global, cursor: &mut Cursor<'_, MemorySource>) -> Result<String, Fail> {
    let mut head = Vec::new(alloc);
    read_head(alloc, cursor, &mut head)?;
    match next_tag(alloc, cursor)? {
        Some(tag) => value_told(alloc, &tag),
        None => Err("no tag")?,
    }
}

/// The same of a file that comes in pieces.
fn told(alloc: Global, file: &[u8], most: usize) -> Result<String, Fail> {
    let mut source = MemorySource::new(alloc, file, most, 0, &[])?;
    let mut cursor = Cursor::new(alloc, &mut source, 1000)?;
    first_told(alloc, &mut cursor)
}

fn is_told(rt: &impl Abort, alloc: Global, row: Row<'_>) -> Result<(), Fail> {
    let front = row.bytes(alloc, 0)?;
    let data = row.bytes(alloc, 1)?;
    let file = file_of(alloc, &front, &data)?;
    is(rt, row, &told(alloc, &file, 65_536)?, row.field(2)?);
    is(rt, row, &told(alloc, &file, 1)?, row.field(2)?);
    Ok(())
}

#[test]
fn metadata_are_read_or_refused(rt: HostRuntime) -> Result<(), Fail> {
    for row in DATA.rows(rt.alloc())?.iter() {
        is_told(&rt, rt.alloc(), *row)?;
    }
    Ok(())
}
