//! Inputs that are cut off or lie about their sizes, and reads that fail.
use crate::runs::{BY_BYTES, Case, WHOLE, Ways, check, check_rows, wrong};
use amf_test_rows::Table;
use amf_vectors::vectors;
use std::alloc::Global;
use std::process::Abort;
use std::random::RandomSource;
use std::sync::Wait;
use std::thread::Threads;

/// Sizes that no input can have are met at its end, and take no memory.
static SIZES: Table = Table {
    rows: 7,
    fields: 5,
    text: r#"
canon | 09 FF FF FF FF 01 | 1 | | 'amf: refused Truncated at 6' 0A
canon | 0A FF FF FF F3 01 | 1 | | 'amf: refused Truncated at 6' 0A
canon | 0D FF FF FF FF 00 | 1 | | 'amf: refused Truncated at 6' 0A
canon | 06 FF FF FF FF 61 | 1 | | 'amf: refused Truncated at 5' 0A
canon | 11 FF FF FF FF 00 | 1 | | 'amf: refused Truncated at 6' 0A
canon --from packet | 00 00 FF FF | 1 | | 'amf: refused Truncated at 4' 0A
canon --from amf0 | 0A FF FF FF FF | 1 | | 'amf: refused Truncated at 5' 0A
"#,
};

#[test]
fn sizes_without_their_bytes(rt: HostRuntime) {
    check_rows(&rt, rt.alloc(), &SIZES);
}

const SOL: &str = "canon --from sol";

/// Words with an input that is accepted: a packet, a file and an object of AMF 0.
static ACCEPTED: [(&str, &[u8]); 3] = [
    (
        "canon --from packet",
        b"\0\0\0\0\0\x01\0\x09echo.echo\0\x02/1\0\0\0\x0A\x0A\0\0\0\x01\x02\0\x02hi",
    ),
    (
        SOL,
        b"\0\xBF\0\0\0\x17TCSO\0\x04\0\0\0\0\0\x01t\0\0\0\0\0\x01a\x01\x01\0",
    ),
    ("canon --from amf0", b"\x03\0\x01a\x07\0\0\0\0\x09"),
];

/// Whether the file ends between pairs.
fn ends_between<R: RandomSource + Threads + Wait + Abort + Sync>(
    rt: &R,
    alloc: Global,
    front: &Case<'_>,
) -> bool {
    let bad_length = Case {
        line: b"amf: refused BadLength at 2\n",
        ..*front
    };
    front.words == SOL && wrong(rt, alloc, &bad_length, WHOLE).is_empty()
}

/// Every front of an accepted input is cut off; of a file it can also end between pairs.
fn check_fronts<R: RandomSource + Threads + Wait + Abort + Sync>(
    rt: &R,
    alloc: Global,
    words: &str,
    input: &[u8],
) {
    for cut in 0..input.len() {
        let front = Case {
            words,
            input: &input[..cut],
            status: 1,
            output: b"",
            line: b"amf: refused Truncated at ",
        };
        let is_cut = wrong(rt, alloc, &front, WHOLE).is_empty();
        assert!(rt;
            is_cut || ends_between(rt, alloc, &front),
            "{words} cut at {cut}"
        );
    }
}

#[test]
fn fronts_of_accepted_inputs(rt: HostRuntime) {
    for (words, input) in ACCEPTED.iter() {
        check_fronts(&rt, rt.alloc(), words, input);
    }
    for vector in vectors() {
        check_fronts(&rt, rt.alloc(), "canon", vector.input);
    }
}

/// Each read of an input that comes a byte at a time fails once, the one that finds the end among them.
fn check_reads<R: RandomSource + Threads + Wait + Abort + Sync>(
    rt: &R,
    alloc: Global,
    words: &str,
    input: &[u8],
) {
    let case = Case {
        words,
        input,
        status: 3,
        output: b"",
        line: b"amf: read fault\n",
    };
    for failing in 0..=input.len() {
        let reads = [failing as u64];
        let ways = Ways {
            reads: &reads,
            ..BY_BYTES
        };
        check(rt, alloc, failing as u64, &case, ways);
    }
}

#[test]
fn reads_that_fail(rt: HostRuntime) {
    for (words, input) in ACCEPTED.iter() {
        check_reads(&rt, rt.alloc(), words, input);
    }
    for vector in vectors() {
        check_reads(&rt, rt.alloc(), "canon", vector.input);
    }
}
