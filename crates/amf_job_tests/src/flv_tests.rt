use crate::cases::{Case, How, check_rows};
use crate::runs::{BY_BYTES, Ways, check};
use amf_test_rows::Table;
use std::alloc::Global;
use std::process::Abort;
use std::random::RandomSource;
use std::sync::Wait;
use std::thread::Threads;

/// Words, an input, the status, the output and the line.
static JOBS: Table = Table {
    rows: 10,
    fields: 5,
    text: "
flv --do set | 05 'FLV' 01 05 00000009 00000000 08 000001 00000000 000000 AF 0000000C | 0 | 'FLV' 01 05 00000009 00000000 12 00000E 00000000 000000 02000A'onMetaData'0500000019 08 00000100000000000000AF 0000000C |
flv --do drop | 'FLV' 01 05 00000009 00000000 12 00000E 00000000 000000 02000A'onMetaData'0500000019 08 000001 00000000 000000 AF 0000000C | 0 | 'FLV' 01 05 00000009 00000000 08 000001 00000000 000000 AF 0000000C |
flv --do show | 'FLV' 01 05 00000009 00000000 12 00000E 00000000 000000 02000A'onMetaData'05 00000019 08 000001 00000000 000000 AF 0000000C | 0 | 'meta' 0A 'root null' 0A |
flv --do=show | 'FLV' 01 05 00000009 00000000 08 000001 00000000 000000 AF 0000000C | 0 | |
# A value of AMF 3 becomes one of AMF 0, and takes the place of another.
flv --do=set | 110405 'FLV' 01 05 00000009 00000000 12 00000E 00000000 000000 02000A'onMetaData'05 00000019 | 0 | 'FLV' 01 05 00000009 00000000 12 00001600000000000000 02000A'onMetaData'00401400000000000000000021 |
# What is before a refusal is written.
flv --do drop | 'FLV' 01 05 00000009 00000000 08 000001 00000000 000000 AF 0000000C 08 00 | 1 | 'FLV' 01 05 00000009 00000000 08 000001 00000000 000000 AF 0000000C | 'amf: refused Truncated at 30' 0A
flv --do set | 05 'FLV' 01 05 00000009 00000000 08 00 | 1 | 'FLV' 01 05 00000009 00000000 12 00000E 00000000 000000 02000A'onMetaData'05 00000019 | 'amf: refused Truncated at 15' 0A
flv --do show | 'FLV' 01 05 00000009 00000000 12 00000E 00000000 000000 02000A'onMetaData'04 00000019 | 1 | | 'amf: refused BadMarker at 37' 0A
# The value is judged first.
flv --do set | 04 'FLV' 01 05 00000009 00000000 | 1 | | 'amf: refused BadMarker at 0' 0A
flv --do set | 11 0C 03 FF 'FLV' 01 05 00000009 00000000 | 7 | | 'amf: no form NoForm node 0 value 0' 0A
",
};

#[test]
fn jobs(rt: HostRuntime) {
    check_rows(&rt, rt.alloc(), &JOBS, How::InPieces(1));
}

/// Words and an input without a head, the status, the output and the line.
static HEADS: Table = Table {
    rows: 5,
    fields: 5,
    text: "
flv --do show | | 1 | | 'amf: refused Truncated at 0' 0A
flv --do drop | 'FLW' 01 05 00000009 00000000 | 1 | | 'amf: refused BadSignature at 0' 0A
flv --do show | 'FLV' 01 05 00000008 00000000 | 1 | | 'amf: refused BadLength at 5' 0A
flv --do set | 05 'FLV' 02 05 00000009 00000000 | 1 | | 'amf: refused BadVersion at 4' 0A
# A value without a form, whatever follows.
flv --do set | 11 0C 03 FF 'FLX' | 7 | | 'amf: no form NoForm node 0 value 0' 0A
",
};

#[test]
fn heads(rt: HostRuntime) {
    check_rows(&rt, rt.alloc(), &HEADS, How::InPieces(1));
}

/// A head and audio of one byte.
const FILE: &[u8] = b"FLV\x01\x05\0\0\0\x09\0\0\0\0\x08\0\0\x01\0\0\0\0\0\0\0\xAF\0\0\0\x0C";

/// How much is written where this read of one byte fails.
fn before(read: usize) -> usize {
    match read {
        0..=12 => 0,
        13..=28 => 13,
        _ => 29,
    }
}

/// Runs where the read of this place fails, and then where the write of it does, each of one byte.
fn check_faults<R: RandomSource + Threads + Wait + Abort + Sync>(
    rt: &R,
    alloc: Global,
    place: usize,
) {
    let calls = [place as u64];
    let read = Case {
        words: "flv --do drop",
        more: b"",
        input: FILE,
        status: 3,
        output: &FILE[..before(place).min(FILE.len())],
        line: b"amf: read fault\n",
    };
    let reads = Ways {
        reads: &calls,
        ..BY_BYTES
    };
    check(rt, alloc, 0, &read, reads);
    let write = Case {
        status: 4,
        output: &FILE[..place.min(FILE.len())],
        line: b"amf: write fault\n",
        ..read
    };
    let writes = Ways {
        writes: &calls,
        ..BY_BYTES
    };
    check(rt, alloc, 0, &write, writes);
}

/// Each read and each write fails in turn; the last of these is the read of the end, and the flush.
#[test]
fn streams_that_fail(rt: HostRuntime) {
    for place in 0..=FILE.len() {
        check_faults(&rt, rt.alloc(), place);
    }
}

/// A text of 2^24 bytes as the metadata of a file.
static LONG_DATA: Table = Table {
    rows: 1,
    fields: 9,
    text: "
flv --do set | 0C 01000000 + 16777216*'a' + 'FLV' 01 05 00000009 00000000 08 000001 00000000 000000 AF 0000000C | 7 | | 'amf: no form LongData node 0 value 0' 0A | 100000000 | 0 | |
",
};

#[test]
fn data_that_is_too_long(rt: HostRuntime) {
    check_rows(&rt, rt.alloc(), &LONG_DATA, How::Listed);
}
