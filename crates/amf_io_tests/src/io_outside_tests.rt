use crate::checks::{field, holds, holds_of, number};
use amf_io::{
    Failed, FaultlessSink, FaultlessSource, Joined, Link, MemorySink, MemorySource, Sink, Source,
    StandardError, StandardInput, StandardOutput,
};
use amf_test_rows::{Row, Table};
use std::alloc::Global;
use std::process::Abort;

/// A link, what is done to it, the byte that is read or the bytes that are written, and how many are read or taken.
static ACTS: Table = Table {
    rows: 15,
    fields: 4,
    text: r"
both  | read  | 7   | 1
both  | write | ab  | 1
both  | read  | 0   | failed
both  | flush |     | failed
both  | read  | 0   | 0
both  | flush |     | 0

sink  | write | abc | 2
sink  | write | c   | failed
sink  | write | c   | 1
sink  | flush |     | failed
sink  | flush |     | 0

roomy | write | abc | 3
roomy | write | d   | 1

full  | write | e   | 1
full  | flush |     | 0
",
};

/// How many bytes are read or taken, with room for two.
fn acted<L: Link>(rt: &impl Abort, link: &mut L, row: Row<'_>) -> Result<usize, Failed> {
    match field(rt, row, 1) {
        "read" => {
            let mut room = [0u8; 2];
            let count = link.read(&mut room);
            holds_of(rt, row, 2, u32::from(room[0]) == number(rt, row, 2));
            count
        }
        "write" => link.write(field(rt, row, 2).as_bytes()),
        _ => match link.flush() {
            Ok(()) => Ok(0),
            Err(end) => Err(end),
        },
    }
}

/// The link does what the rows of this name say.
fn acts<L: Link>(rt: &impl Abort, alloc: Global, link: &mut L, name: &str) {
    for row in ACTS.rows(alloc).expect(rt, "rows").iter() {
        if field(rt, *row, 0) == name {
            let want = match field(rt, *row, 3) {
                "failed" => Err(Failed),
                _ => Ok(number(rt, *row, 3) as usize),
            };
            holds_of(rt, *row, 3, acted(rt, link, *row) == want);
        }
    }
}

/// A link that gives one byte does what the rows of this name say. Each call that is to fail has failed, and these bytes were
/// taken.
fn fails(
    rt: &impl Abort,
    alloc: Global,
    name: &str,
    reads: &[u64],
    most: usize,
    writes: &[u64],
    taken: &[u8],
) {
    let source = MemorySource::new(alloc, &[7], 1, 0, reads).expect(rt, "a source");
    let sink = MemorySink::new(alloc, most, writes).expect(rt, "a sink");
    let mut link = Joined { source, sink };
    acts(rt, alloc, &mut link, name);
    let (failed_reads, failed_writes) = (reads.len() as u64, writes.len() as u64);
    holds(rt, link.source.faults() == failed_reads, "faults of reads");
    holds(rt, link.sink.faults() == failed_writes, "faults of writes");
    holds(rt, link.sink.as_bytes() == taken, "what was taken");
}

#[test]
fn a_link_fails_on_each_side_by_itself(rt: HostRuntime) {
    fails(&rt, rt.alloc(), "both", &[1], 1, &[1], b"a");
}

#[test]
fn takes_what_is_written(rt: HostRuntime) {
    fails(&rt, rt.alloc(), "sink", &[], 2, &[1, 3], b"abc");
}

#[test]
fn keeps_what_it_has_room_for(rt: HostRuntime) {
    let source = FaultlessSource::new(rt.alloc(), b"", 1, 0).expect(&rt, "a source");
    let sink = FaultlessSink::new(rt.alloc(), 4).expect(&rt, "a sink");
    let mut link = Joined { source, sink };
    acts(&rt, rt.alloc(), &mut link, "roomy");
    holds(&rt, !link.sink.has_dropped(), "nothing is dropped");
    acts(&rt, rt.alloc(), &mut link, "full");
    holds(&rt, link.sink.has_dropped(), "a byte is dropped");
    let kept = link.sink.as_bytes() == b"abcd".as_slice();
    holds(&rt, kept, "what is kept");
}

#[test]
fn reaches_the_standard_streams(rt: HostRuntime) {
    let mut input = StandardInput::new(rt.stdin());
    let mut room = [0u8; 4];
    holds(&rt, input.read(&mut room) == Ok(0), "no input");
    let mut output = StandardOutput::new(rt.stdout());
    holds(&rt, output.write(b"out") == Ok(3), "three bytes of output");
    holds(&rt, output.flush() == Ok(()), "a flush of the output");
    let mut error = StandardError::new(rt.stderr());
    holds(&rt, error.write(b"err") == Ok(3), "three bytes of errors");
    holds(&rt, error.flush() == Ok(()), "a flush of the errors");
}
