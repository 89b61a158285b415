use crate::checks::{bytes_in, number};
use crate::replies::put;
use amf_client::{AskEnd, write_call};
use amf_fixtures::{graph0, graph3};
use amf_graph::{Lack, LackKind, Rooted};
use amf_io::{Joined, MemorySink, MemorySource};
use amf_test_rows::{Row, Table, bytes_of};
use amf_wire::{Name, is_amf_text};
use std::alloc::Global;
use std::process::Abort;

/// The arguments 2 and 3.
const TWO_AND_THREE: &[u8] = b"\x09\x05\x01\x04\x02\x04\x03";

/// How the call of `sum.sum` on port 1 with the arguments 2 and 3 is written.
const SUM: &str =
    "'POST /amf HTTP/1.1' 0D 0A 'Host: 127.0.0.1:1' 0D 0A 'Content-Type: application/x-amf' 0D 0A 'Content-Length: 31' 0D 0A 0D 0A 00 03 00 00 00 01 00 07 'sum.sum' 00 02 '/1' FF FF FF FF 11 09 05 01 04 02 04 03";

/// A port, a target, arguments in AMF 3, and what is written but for the three lines that each call has.
static CALLS: Table = Table {
    rows: 4,
    fields: 4,
    text: r"
0 | '' | 09 01 01 | 'Host: 127.0.0.1:0' 0D 0A 'Content-Type: application/x-amf' 0D 0A 'Content-Length: 20' 0D 0A 0D 0A 00 03 00 00 00 01 00 00 00 02 '/1' FF FF FF FF 11 09 01 01
65535 | 'a' | 09 01 01 | 'Host: 127.0.0.1:65535' 0D 0A 'Content-Type: application/x-amf' 0D 0A 'Content-Length: 21' 0D 0A 0D 0A 00 03 00 00 00 01 00 01 'a' 00 02 '/1' FF FF FF FF 11 09 01 01
80 | 'a' | 09 03 01 06 03 'b' | 'Host: 127.0.0.1:80' 0D 0A 'Content-Type: application/x-amf' 0D 0A 'Content-Length: 24' 0D 0A 0D 0A 00 03 00 00 00 01 00 01 'a' 00 02 '/1' FF FF FF FF 11 09 03 01 06 03 'b'
80 | 'a' | 09 03 01 04 80 05 | 'Host: 127.0.0.1:80' 0D 0A 'Content-Type: application/x-amf' 0D 0A 'Content-Length: 23' 0D 0A 0D 0A 00 03 00 00 00 01 00 01 'a' 00 02 '/1' FF FF FF FF 11 09 03 01 04 05
",
};

/// Values in AMF 3 that are no array without names.
static NO_ARGUMENTS: Table = Table {
    rows: 5,
    fields: 1,
    text: r"
01
04 05
06 03 'a'
09 01 03 'a' 01 01
0A 0B 01 01
",
};

/// A call that is to be made.
#[derive(Clone, Copy)]
struct Call<'a> {
    port: u16,
    target: &'a [u8],
    args: &'a Rooted,
}

/// How many bytes a link takes at once at most, and its writes that fail.
#[derive(Clone, Copy)]
struct Takes<'a> {
    most: usize,
    failing: &'a [u64],
}

const WHOLE: Takes<'static> = Takes {
    most: usize::MAX,
    failing: &[],
};

const BY_BYTES: Takes<'static> = Takes {
    most: 1,
    failing: &[],
};

/// A link on which nothing comes.
fn link_of(rt: &impl Abort, alloc: Global, takes: Takes<'_>) -> Joined<MemorySource, MemorySink> {
    Joined {
        source: MemorySource::new(alloc, b"", 1, 0, &[]).expect(rt, "a source"),
        sink: MemorySink::new(alloc, takes.most, takes.failing).expect(rt, "a sink"),
    }
}

/// Makes the call over a link.
fn write_to(
    rt: &impl Abort,
    alloc: Global,
    link: &mut Joined<MemorySource, MemorySink>,
    call: Call<'_>,
) -> Result<(), AskEnd> {
    assert!(rt; is_amf_text(call.target), "no text");
    assert!(rt; call.target.len() <= 65_535, "a long text");
    let target = Name::of_bytes(alloc, call.target).expect(rt, "a name");
    write_call(alloc, link, call.port, &target, call.args)
}

/// Ends the test unless the call ends so, and this was written.
fn ends_so(
    rt: &impl Abort,
    alloc: Global,
    call: Call<'_>,
    takes: Takes<'_>,
    end: Result<(), AskEnd>,
    written: &[u8],
) {
    let mut link = link_of(rt, alloc, takes);
    let ended = write_to(rt, alloc, &mut link, call);
    let port = call.port;
    assert!(rt; ended == end, "port {port}: another end");
    assert!(rt; link.sink.as_bytes() == written, "port {port}: other bytes");
}

/// The bytes of a whole call of `sum.sum`.
fn sum_spelled(rt: &impl Abort, alloc: Global) -> Vec<u8> {
    bytes_of(alloc, SUM)
        .expect(rt, "memory")
        .expect(rt, "bytes")
}

/// A call of `sum.sum`.
fn sum_of(args: &Rooted) -> Call<'_> {
    Call {
        port: 1,
        target: b"sum.sum",
        args,
    }
}

#[test]
fn two_and_three(rt: HostRuntime) {
    let args = graph3(rt.alloc(), TWO_AND_THREE).expect(&rt, "a graph");
    let wanted = sum_spelled(&rt, rt.alloc());
    ends_so(&rt, rt.alloc(), sum_of(&args), WHOLE, Ok(()), &wanted);
    ends_so(&rt, rt.alloc(), sum_of(&args), BY_BYTES, Ok(()), &wanted);
}

/// The arguments that are a field of a row.
fn args_in(rt: &impl Abort, alloc: Global, row: Row<'_>, place: usize) -> Rooted {
    graph3(alloc, &bytes_in(rt, alloc, row, place)).expect(rt, "a graph")
}

/// What is to be written of the call of a row.
fn written_in(rt: &impl Abort, alloc: Global, row: Row<'_>) -> Vec<u8> {
    let mut wanted = Vec::new(alloc);
    let lines = bytes_in(rt, alloc, row, 3);
    put(rt, &mut wanted, &[b"POST /amf HTTP/1.1\r\n", &lines]);
    wanted
}

/// Makes the call of a row with these arguments.
fn ask_row(rt: &impl Abort, alloc: Global, row: Row<'_>, args: &Rooted) {
    let port = u16::try_from(number(rt, row, 0)).expect(rt, "a port");
    let target = bytes_in(rt, alloc, row, 1);
    let wanted = written_in(rt, alloc, row);
    let call = Call {
        port,
        target: &target,
        args,
    };
    ends_so(rt, alloc, call, WHOLE, Ok(()), &wanted);
}

#[test]
fn calls(rt: HostRuntime) {
    for row in CALLS.rows(rt.alloc()).expect(&rt, "rows").iter() {
        let args = args_in(&rt, rt.alloc(), *row, 2);
        ask_row(&rt, rt.alloc(), *row, &args);
    }
}

/// A call of `a` with these arguments ends so, and nothing is written. Its port is the line of the row.
fn writes_nothing(rt: &impl Abort, alloc: Global, port: u16, args: &Rooted, end: AskEnd) {
    let call = Call {
        port,
        target: b"a",
        args,
    };
    ends_so(rt, alloc, call, WHOLE, Err(end), b"");
}

#[test]
fn no_arguments(rt: HostRuntime) {
    for row in NO_ARGUMENTS.rows(rt.alloc()).expect(&rt, "rows").iter() {
        let port = u16::try_from(row.line()).expect(&rt, "a port");
        let args = args_in(&rt, rt.alloc(), *row, 0);
        writes_nothing(&rt, rt.alloc(), port, &args, AskEnd::NotArgs);
    }
}

/// An array whose item has an empty name, as AMF 0 can say it.
#[test]
fn no_spelling(rt: HostRuntime) {
    let args = graph0(rt.alloc(), b"\x0A\0\0\0\x01\x03\0\0\x05\0\0\x09").expect(&rt, "a graph");
    let lack = Lack {
        node: 1,
        kind: LackKind::EmptyName,
    };
    writes_nothing(&rt, rt.alloc(), 1, &args, AskEnd::NoSpelling(lack));
}

/// The call over a link that takes ten bytes at once, and fails, ends so, with this written.
fn fails_with(rt: &impl Abort, alloc: Global, args: &Rooted, takes: Takes<'_>, written: &[u8]) {
    let end = Err(AskEnd::WriteFault);
    ends_so(rt, alloc, sum_of(args), takes, end, written);
}

/// Where the third write of ten bytes fails, 20 bytes were written; where the first does, none; and where the flush does, all.
#[test]
fn writes_that_fail(rt: HostRuntime) {
    let args = graph3(rt.alloc(), TWO_AND_THREE).expect(&rt, "a graph");
    let wanted = sum_spelled(&rt, rt.alloc());
    for (most, failing, front) in [(10, 2, 20), (10, 0, 0), (usize::MAX, 1, wanted.len())] {
        let takes = Takes {
            most,
            failing: &[failing],
        };
        let written = wanted.get(..front).expect(&rt, "a front");
        fails_with(&rt, rt.alloc(), &args, takes, written);
    }
}
