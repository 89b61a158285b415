use crate::runs::{BY_BYTES, Case, Ways, check, check_rows, put};
use amf_graph::{BuildEnd, Builder};
use amf_test_rows::{Table, push_part};
use amf_wire::is_amf_text;
use std::alloc::Global;
use std::process::Abort;
use std::random::RandomSource;
use std::sync::Wait;
use std::thread::Threads;

/// Nodes within one another.
static NESTED: Table = Table {
    rows: 6,
    fields: 9,
    text: "
canon | 513*09 03 01 + 01 | 0 | 513*09 03 01 + 01 | | 10000 1 | 0 | |
canon | 513*09 03 01 + 01 | 0 | 513*09 03 01 + 01 | | 10000 | 1536 | |
canon | 513*09 03 01 + 09 00 | 0 | 513*09 03 01 + 09 00 | | 10000 1 | 0 | |
canon | 513*09 03 01 + 09 00 | 0 | 513*09 03 01 + 09 00 | | 10000 | 1536 | |
canon | 513*09 03 01 + 0C 03 FF | 0 | 513*09 03 01 + 0C 03 FF | | 10000 1 | 0 | |
canon | 513*09 03 01 + 0C 03 FF | 0 | 513*09 03 01 + 0C 03 FF | | 10000 | 1536 | |
",
};

#[test]
fn nodes_within_nodes(rt: HostRuntime) {
    check_rows(&rt, rt.alloc(), &NESTED);
}

/// More nodes within one another than a stack of calls has room for.
static VERY_MANY: Table = Table {
    rows: 5,
    fields: 9,
    text: "
canon | 2000000*09 03 01 + 01 | 0 | 2000000*09 03 01 + 01 | | 65536 | 0 | |
canon | 500000*09 03 01 | 1 | | 'amf: refused Truncated at 1500000' 0A | 65536 | 0 | |
canon | 500000*09 03 01 + 09 BD 84 40 | 1 | | 'amf: refused BadReference at 1500001' 0A | 65536 | 0 | |
same | 500000*09 03 01 + 01 + 500000*09 03 01 + 01 | 0 | 'same' 0A | | 65536 | 0 | |
same | 500000*09 03 01 + 01 + 500000*09 03 01 + 02 | 0 | 'different' 0A | | 65536 | 0 | |
",
};

#[test]
fn very_many_nodes_within_nodes(rt: HostRuntime) {
    check_rows(&rt, rt.alloc(), &VERY_MANY);
}

/// Bytes and texts of 2^24 bytes, and byte arrays just below and at the length from which they have a list of their own.
static LONG: Table = Table {
    rows: 3,
    fields: 9,
    text: "
canon | 0C 88 80 80 01 + 16777216*00 | 0 | 0C 88 80 80 01 + 16777216*00 | | 33554432 | 0 | |
canon | 06 88 80 80 01 + 16777216*'a' | 0 | 06 88 80 80 01 + 16777216*'a' | | 33554432 | 0 | |
canon | 09 05 01 + 0C BF 7F + 4095*00 + 0C C0 01 + 4096*00 | 0 | 09 05 01 + 0C BF 7F + 4095*00 + 0C C0 01 + 4096*00 | | 10000 1 | 0 | |
",
};

#[test]
fn long_inputs(rt: HostRuntime) {
    check_rows(&rt, rt.alloc(), &LONG);
}

/// More than the limit of 2^26 bytes. Of the last two values each is within it, and the second ends one byte behind it.
static PAST_THE_LIMIT: Table = Table {
    rows: 3,
    fields: 9,
    text: "
canon | 0C A0 80 80 01 + 67108864*00 | 1 | | 'amf: refused TooLarge at 5' 0A | 33554432 | 0 | |
canon | 06 A0 80 80 01 + 67108864*'a' | 1 | | 'amf: refused TooLarge at 5' 0A | 33554432 | 0 | |
same | 0C 8F FF FF F7 + 33554427*00 + 0C 8F FF FF F9 + 33554428*00 | 1 | | 'amf: refused TooLarge at 33554437' 0A | 33554432 | 0 | |
",
};

#[test]
fn inputs_past_the_limit(rt: HostRuntime) {
    check_rows(&rt, rt.alloc(), &PAST_THE_LIMIT);
}

/// The last decimal digit.
fn digit(number: u32) -> u8 {
    b'0' + (number % 10) as u8
}

/// Appends the name of three digits, so many bytes and an array by its place, which is below 8192.
fn put_pair(rt: &impl Abort, out: &mut Vec<u8>, name: u32, front: &[u8], place: u32) {
    put(
        rt,
        out,
        1,
        &[0x07, digit(name / 100), digit(name / 10), digit(name)],
    );
    put(rt, out, 1, front);
    let header = 2 * (place % 8192);
    if header < 128 {
        put(rt, out, 1, &[0x09, (header % 128) as u8]);
    } else {
        put(
            rt,
            out,
            1,
            &[
                0x09,
                0x80 + (header / 128 % 128) as u8,
                (header % 128) as u8,
            ],
        );
    }
}

/// Appends the header of a dynamic object or of an array, and 600 named pairs of arrays, of which each but the first holds the
/// one before it: in the order of their names each stands within the one before it.
fn put_chain(rt: &impl Abort, alloc: Global, out: &mut Vec<u8>, header: &[u8]) {
    put(rt, out, 1, header);
    push_part(alloc, out, "07 '599' 09 01 01").expect(rt, "bytes");
    for member in 2..601_u32 {
        put_pair(rt, out, 600 - member, b"\x09\x03\x01", member - 1);
    }
    put(rt, out, 1, b"\x01");
}

/// Appends the canonical spelling of the same: the first name has all arrays, within one another, and each other name has one
/// of them by its place.
fn put_sorted_chain(rt: &impl Abort, alloc: Global, out: &mut Vec<u8>, header: &[u8]) {
    put(rt, out, 1, header);
    push_part(alloc, out, "07 '000'").expect(rt, "bytes");
    push_part(alloc, out, "599*09 03 01").expect(rt, "bytes");
    push_part(alloc, out, "09 01 01").expect(rt, "bytes");
    for name in 1..600_u32 {
        put_pair(rt, out, name, b"", name + 1);
    }
    put(rt, out, 1, b"\x01");
}

/// The headers of a dynamic object and of an array.
static HEADERS: [&[u8]; 2] = [b"\x0A\x0B\x01", b"\x09\x01"];

const AT_ONCE: Ways<'static> = Ways {
    most: 10_000,
    ..BY_BYTES
};

/// Runs with these words over bytes, and looks for these.
fn check_written<R: RandomSource + Threads + Wait + Abort + Sync>(
    rt: &R,
    alloc: Global,
    words: &str,
    input: &[u8],
    output: &[u8],
    ways: Ways<'_>,
) {
    let case = Case {
        words,
        input,
        status: 0,
        output,
        line: b"",
    };
    check(rt, alloc, 0, &case, ways);
}

/// What is written may have more nodes within one another than what was read.
#[test]
fn nodes_within_nodes_by_name(rt: HostRuntime) {
    let alloc = rt.alloc();
    for header in HEADERS.iter() {
        let mut input = Vec::new(alloc);
        put_chain(&rt, alloc, &mut input, header);
        let mut output = Vec::new(alloc);
        put_sorted_chain(&rt, alloc, &mut output, header);
        for ways in [AT_ONCE, BY_BYTES] {
            check_written(&rt, alloc, "canon", &input, &output, ways);
            check_written(&rt, alloc, "canon", &output, &output, ways);
        }
    }
}

#[test]
fn chains_are_the_same_by_name(rt: HostRuntime) {
    let alloc = rt.alloc();
    for header in HEADERS.iter() {
        for last in HEADERS.iter() {
            let mut both = Vec::new(alloc);
            put_chain(&rt, alloc, &mut both, header);
            put_sorted_chain(&rt, alloc, &mut both, last);
            let said: &[u8] = if header.len() == last.len() {
                b"same\n"
            } else {
                b"different\n"
            };
            check_written(&rt, alloc, "same", &both, said, AT_ONCE);
        }
    }
}

/// A text of one byte more than a builder keeps.
#[test]
fn a_text_past_the_most(rt: HostRuntime) {
    let mut bytes = Vec::new(rt.alloc());
    bytes.resize(268_435_456, b'a').expect(&rt, "memory");
    assert!(rt; is_amf_text(&bytes));
    let mut builder = Builder::new(rt.alloc()).expect(&rt, "a builder");
    assert!(rt; builder.text(&bytes) == Err(BuildEnd::Full));
}
