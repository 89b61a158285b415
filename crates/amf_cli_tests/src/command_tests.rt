use crate::runs::{BY_BYTES, Case, WHOLE, Ways, check, check_rows, run_alone};
use amf_io::{FaultlessSource, MemorySink};
use amf_test_rows::Table;
use amf_vectors::{Vector, vectors};
use std::alloc::Global;
use std::process::Abort;
use std::random::RandomSource;
use std::sync::Wait;
use std::thread::Threads;

/// Counts and listings. An integer of AMF 3 in AMF 0 stays one: a listing is of what was read.
static LISTINGS: Table = Table {
    rows: 13,
    fields: 5,
    text: r#"
check | 09 05 01 09 01 01 09 02 | 0 | 'ok nodes 2' 0A |
check | 04 05 | 0 | 'ok nodes 0' 0A |
check | | 1 | | 'amf: refused Truncated at 0' 0A
check | 01 01 | 1 | | 'amf: refused Trailing at 1' 0A
check --from amf0 | 0A 00 00 00 02 0A 00 00 00 00 07 00 01 | 0 | 'ok nodes 2' 0A |
show --from=amf3 | 0A 0B 01 03 62 04 01 03 61 04 02 01 | 0 | 'root #0' 0A '#0 object "" sealed {} dynamic {"a"=2, "b"=1}' 0A |
show --from=amf3 | 06 05 C0 80 | 0 | 'root "\c0\80"' 0A |
show --from=amf3 | 09 03 01 09 00 | 0 | 'root #0' 0A '#0 array [#0] {}' 0A |
show --from=amf3 | 12 | 1 | | 'amf: refused BadMarker at 0' 0A
show --from=amf0 | 0A 00 00 00 01 11 04 05 | 0 | 'root #0' 0A '#0 array [5] {}' 0A |
show --from=amf0 | 03 00 01 61 07 00 00 00 00 09 | 0 | 'root #0' 0A '#0 object "" sealed {} dynamic {"a"=#0}' 0A |
gen --seed 1 --size 3 | | 0 | 'nodes 3 bytes 27 sum 931' 0A |
gen --size=0000000001 --seed=4294967295 | | 0 | 'nodes 1 bytes 3 sum 11' 0A |
"#,
};

#[test]
fn counts_and_listings(rt: HostRuntime) {
    check_rows(&rt, rt.alloc(), &LISTINGS);
}

/// Writes the line of a large graph.
fn make_large<R: RandomSource + Threads + Wait + Abort + Sync>(
    rt: &R,
    alloc: Global,
    out: &mut MemorySink,
) {
    let mut input = FaultlessSource::new(alloc, &[], 1, 0).expect(rt, "a source");
    let mut line = MemorySink::new(alloc, 100, &[]).expect(rt, "a sink");
    let words = "gen --size=20000 --seed 1";
    let status = run_alone(rt, alloc, words, &mut input, out, &mut line);
    assert!(rt; status == 0);
}

/// The same graph is made again.
#[test]
fn graphs_that_are_made(rt: HostRuntime) {
    let mut first = MemorySink::new(rt.alloc(), 2, &[]).expect(&rt, "a sink");
    make_large(&rt, rt.alloc(), &mut first);
    let mut again = MemorySink::new(rt.alloc(), 2, &[]).expect(&rt, "a sink");
    make_large(&rt, rt.alloc(), &mut again);
    assert!(rt; first.as_bytes().starts_with(b"nodes 20000 bytes "));
    assert!(rt; first.as_bytes() == again.as_bytes());
}

fn check_vector<R: RandomSource + Threads + Wait + Abort + Sync>(
    rt: &R,
    alloc: Global,
    place: u64,
    vector: &Vector,
) {
    let case = Case {
        words: "canon",
        input: vector.input,
        status: 0,
        output: vector.output,
        line: b"",
    };
    check(rt, alloc, place, &case, WHOLE);
    check(rt, alloc, place, &case, BY_BYTES);
    check(rt, alloc, place, &case, Ways { cut: 2, ..WHOLE });
}

/// The values with their canonical spellings.
#[test]
fn vectors_of_amf_3(rt: HostRuntime) {
    for (place, vector) in vectors().iter().enumerate() {
        check_vector(&rt, rt.alloc(), place as u64, vector);
    }
}
