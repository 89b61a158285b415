use crate::checks::is_at;
use crate::runs::{failing, pieces, reads_fail, run, runs_in_any_pieces, wanted, writes_fail};
use amf_media::FlvJob;
use amf_test_rows::Table;
use amf_wire::{U29, write_u29};
use std::alloc::Global;
use std::test::Fail;

/// A value and what stands behind it, how the job that sets it ends, and its output.
static SET: Table = Table {
    rows: 20,
    fields: 3,
    text: "
05 'FLV' 01 05 00000009 00000000 08 000001 00000000 000000 AF 0000000C | Done | 'FLV' 01 05 00000009 00000000 12 00000E 00000000 000000 02000A'onMetaData'05 00000019 08 000001 00000000 000000 AF 0000000C
# A file of its head alone; another value; a value of AMF 3, which is lowered.
05 'FLV' 01 05 00000009 00000000 | Done | 'FLV' 01 05 00000009 00000000 12 00000E 00000000 000000 02000A'onMetaData'05 00000019
020001'a' 'FLV' 01 FF 00000009 01020304 | Done | 'FLV' 01 FF 00000009 01020304 12 000011 00000000 000000 02000A'onMetaData'020001'a' 0000001C
11 0405 'FLV' 01 05 00000009 00000000 | Done | 'FLV' 01 05 00000009 00000000 12 000016 00000000 000000 02000A'onMetaData'00 4014000000000000 00000021
# Metadata that stand in the file are gone, in any place, and their values are not judged.
05 'FLV' 01 05 00000009 00000000 12 000011 01020304 050607 02000A'onMetaData'0101FFFF 00000000 | Done | 'FLV' 01 05 00000009 00000000 12 00000E 00000000 000000 02000A'onMetaData'05 00000019
05 'FLV' 01 05 00000009 00000000 08 000001 00000000 000000 AF 0000000C 12 00000E 00000000 000000 02000A'onMetaData'FF 00000019 | Done | 'FLV' 01 05 00000009 00000000 12 00000E 00000000 000000 02000A'onMetaData'05 00000019 08 000001 00000000 000000 AF 0000000C
# The value is refused, and nothing is written.
| Truncated 0 |
02 | Truncated 1 |
020005'ab' | Truncated 3 |
FF 'FLV' 01 05 00000009 00000000 | BadMarker 0 |
07 0000 'FLV' 01 05 00000009 00000000 | BadReference 0 |
# The file is refused, and places are counted from the first byte of the value.
05 | Truncated 1 |
05 'FLW' 01 05 00000009 00000000 | BadSignature 1 |
020001'a' 'FLV' 02 | BadVersion 7 |
05 'FLV' 01 05 00000008 00000000 | BadLength 6 |
05 'FLV' 01 05 00000009 00000000 08 00 | Truncated 15 | 'FLV' 01 05 00000009 00000000 12 00000E 00000000 000000 02000A'onMetaData'05 00000019
05 'FLV' 01 05 00000009 00000000 08 000001 00000000 000000 AF 0000000C 08 00 | Truncated 31 | 'FLV' 01 05 00000009 00000000 12 00000E 00000000 000000 02000A'onMetaData'05 00000019 08 000001 00000000 000000 AF 0000000C
# A value without a form, whatever follows.
11 0C03FF 'FLV' 01 05 00000009 00000000 | NoForm 0 |
11 0C03FF 'FLW' | NoForm 0 |
11 0C03FF | NoForm 0 |
",
};

/// A value, the head, audio of one byte, and other metadata.
const INPUT: &[u8] =
    b"\x05FLV\x01\x05\0\0\0\x09\0\0\0\0\x08\0\0\x01\0\0\0\0\0\0\0\xAF\0\0\0\x0C\x12\0\0\x0E\0\0\0\0\0\0\0\x02\0\x0AonMetaData\x06\0\0\0\x19";

/// The head, the value as metadata, and the audio.
const OUTPUT: &[u8] =
    b"FLV\x01\x05\0\0\0\x09\0\0\0\0\x12\0\0\x0E\0\0\0\0\0\0\0\x02\0\x0AonMetaData\x05\0\0\0\x19\x08\0\0\x01\0\0\0\0\0\0\0\xAF\0\0\0\x0C";

/// From which to which read of one byte one fails, and how many bytes are written before.
static READ_FAULTS: Table = Table {
    rows: 4,
    fields: 3,
    text: "
0 | 0 | 0
1 | 13 | 0
14 | 29 | 42
30 | 59 | 58
",
};

#[test]
fn values_are_set(rt: HostRuntime) -> Result<(), Fail> {
    for row in SET.rows(rt.alloc())?.iter() {
        let bytes = row.bytes(rt.alloc(), 0)?;
        let want = wanted(rt.alloc(), row.field(1)?, &row.bytes(rt.alloc(), 2)?)?;
        runs_in_any_pieces(&rt, rt.alloc(), *row, FlvJob::Set, &bytes, &want)?;
    }
    Ok(())
}

#[test]
fn reads_fail_in_the_value_and_behind_it(rt: HostRuntime) -> Result<(), Fail> {
    reads_fail(&rt, rt.alloc(), &READ_FAULTS, FlvJob::Set, INPUT, OUTPUT)
}

/// This write of one byte fails: the bytes before were written. Behind the 58 bytes comes the flush.
#[test]
fn writes_of_what_is_set_fail(rt: HostRuntime) -> Result<(), Fail> {
    writes_fail(&rt, rt.alloc(), 59, FlvJob::Set, INPUT, OUTPUT)
}

/// An array of AMF 3 with one text of 65,277 bytes 257 times and 238 nulls: in AMF 0 the data of its tag would have 16,777,216
/// bytes.
fn long_value(alloc: Global) -> Result<Vec<u8>, Fail> {
    let count = U29::new((257 + 238) * 2 + 1).ok_or("a number of 29 bits")?;
    let size = U29::new(65_277 * 2 + 1).ok_or("a number of 29 bits")?;
    let mut bytes = vec![in alloc; 0x11, 0x09]?;
    bytes.extend_from_slice(write_u29(count).as_slice())?;
    bytes.extend_from_slice(&[0x01, 0x06])?;
    bytes.extend_from_slice(write_u29(size).as_slice())?;
    for _ in 0..65_277 {
        bytes.push(b'a')?;
    }
    for _ in 1..257 {
        bytes.extend_from_slice(&[0x06, 0x00])?;
    }
    for _ in 0..238 {
        bytes.push(0x01)?;
    }
    Ok(bytes)
}

#[test]
fn a_value_is_too_long_for_a_tag(rt: HostRuntime) -> Result<(), Fail> {
    let bytes = long_value(rt.alloc())?;
    let want = wanted(rt.alloc(), "LongData", &[])?;
    let told = run(rt.alloc(), FlvJob::Set, &bytes, &pieces(65_536, 0))?;
    is_at(&rt, 0, &told, &want);
    Ok(())
}

/// The read that would come behind the end fails, and does not come.
#[test]
fn no_read_follows_the_end_of_what_is_set(rt: HostRuntime) -> Result<(), Fail> {
    let link = failing(&[60], &[]);
    let want = wanted(rt.alloc(), "Done", OUTPUT)?;
    let told = run(rt.alloc(), FlvJob::Set, INPUT, &link)?;
    is_at(&rt, 60, &told, &want);
    Ok(())
}
