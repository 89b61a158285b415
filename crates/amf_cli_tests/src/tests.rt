use crate::runs::{check_rows, run_alone};
use amf_io::{FaultlessSink, FaultlessSource};
use amf_test_rows::Table;

/// Values without nodes, and what is no value.
static VALUES: Table = Table {
    rows: 19,
    fields: 5,
    text: r#"
canon | 00 | 0 | 00 |
canon | 01 | 0 | 01 |
canon | 02 | 0 | 02 |
canon | 03 | 0 | 03 |
canon | 04 80 05 | 0 | 04 05 |
canon | 04 C0 80 80 00 | 0 | 04 C0 80 80 00 |
canon | 04 BF FF FF FF | 0 | 04 BF FF FF FF |
canon | 04 FF FF FF FF | 0 | 04 FF FF FF FF |
canon | 05 40 14 00 00 00 00 00 00 | 0 | 05 40 14 00 00 00 00 00 00 |
canon | 06 01 | 0 | 06 01 |
canon | 06 80 01 | 0 | 06 01 |
canon | 06 05 C0 80 | 0 | 06 05 C0 80 |
canon | | 1 | | 'amf: refused Truncated at 0' 0A
canon | 12 | 1 | | 'amf: refused BadMarker at 0' 0A
canon | 01 01 | 1 | | 'amf: refused Trailing at 1' 0A
canon | 04 80 80 80 | 1 | | 'amf: refused Truncated at 1' 0A
canon | 06 02 | 1 | | 'amf: refused BadTextIndex at 1' 0A
canon | 06 07 66 | 1 | | 'amf: refused Truncated at 2' 0A
canon | 06 03 FF | 1 | | 'amf: refused BadText at 2' 0A
"#,
};

#[test]
fn values_without_nodes(rt: HostRuntime) {
    check_rows(&rt, rt.alloc(), &VALUES);
}

/// Arrays and other nodes.
static NODES: Table = Table {
    rows: 13,
    fields: 5,
    text: r#"
canon | 09 01 01 | 0 | 09 01 01 |
canon | 09 03 01 09 00 | 0 | 09 03 01 09 00 |
canon | 09 05 01 09 01 01 09 02 | 0 | 09 05 01 09 01 01 09 02 |
canon | 09 05 01 06 07 'foo' 06 07 'foo' | 0 | 09 05 01 06 07 'foo' 06 00 |
canon | 09 01 03 62 04 01 03 61 04 02 01 | 0 | 09 01 03 61 04 02 03 62 04 01 01 |
canon | 09 01 03 61 01 03 61 02 01 | 0 | 09 01 03 61 01 00 02 01 |
canon | 08 03 00 00 00 00 00 00 00 00 | 0 | 08 01 00 00 00 00 00 00 00 00 |
canon | 0D 05 02 00 00 00 01 FF FF FF FF | 0 | 0D 05 01 00 00 00 01 FF FF FF FF |
canon | 10 01 00 01 | 0 | 10 01 00 01 |
canon | 11 03 00 04 01 06 03 61 | 0 | 11 03 00 04 01 06 03 61 |
canon | 09 00 | 1 | | 'amf: refused BadReference at 1' 0A
canon | 09 03 01 09 02 | 1 | | 'amf: refused BadReference at 4' 0A
canon | 09 03 01 0A 00 | 1 | | 'amf: refused WrongKind at 4' 0A
"#,
};

#[test]
fn arrays_and_other_nodes(rt: HostRuntime) {
    check_rows(&rt, rt.alloc(), &NODES);
}

static OBJECTS: Table = Table {
    rows: 9,
    fields: 5,
    text: r#"
canon | 0A 0B 01 03 62 04 01 03 61 04 02 01 | 0 | 0A 0B 01 03 61 04 02 03 62 04 01 01 |
canon | 0A 0B 01 03 62 09 01 01 03 61 09 02 01 | 0 | 0A 0B 01 03 61 09 01 01 03 62 09 02 01 |
canon | 0A 03 03 43 | 0 | 0A 03 03 43 |
canon | 09 05 01 0A 13 03 43 03 61 04 01 0A 01 04 02 | 0 | 09 05 01 0A 13 03 43 03 61 04 01 0A 01 04 02 |
canon | 0A 07 43 'flex.messaging.io.ArrayCollection' 09 01 01 | 0 | 0A 07 43 'flex.messaging.io.ArrayCollection' 09 01 01 |
canon | 0A 0F 43 'flex.messaging.io.ArrayCollection' 09 01 01 | 0 | 0A 07 43 'flex.messaging.io.ArrayCollection' 09 01 01 |
canon | 0A 01 | 1 | | 'amf: refused BadTraits at 1' 0A
canon | 0A 07 07 'foo' | 1 | | 'amf: refused UnknownExternal at 2' 0A
canon | 0A 07 37 'aaaaaaaaaaaaaaaaaaaaaaaaaaa' | 1 | | 'amf: refused UnknownExternal at 3' 0A
"#,
};

#[test]
fn objects(rt: HostRuntime) {
    check_rows(&rt, rt.alloc(), &OBJECTS);
}

/// Two values, one after the other.
static PAIRS: Table = Table {
    rows: 20,
    fields: 5,
    text: r#"
same | 09 05 01 09 01 01 09 02 09 05 01 09 01 01 09 01 01 | 0 | 'different' 0A |
same | 09 01 03 62 04 01 03 61 04 02 01 09 01 03 61 04 02 03 62 04 01 01 | 0 | 'same' 0A |
same | 09 07 01 09 01 01 09 01 01 09 02 09 07 01 09 01 01 09 01 01 09 04 | 0 | 'different' 0A |
same | 09 05 01 09 01 01 09 02 09 05 01 09 01 01 09 02 | 0 | 'same' 0A |
same | 09 05 01 09 01 01 09 01 01 09 05 01 09 01 01 09 01 01 | 0 | 'same' 0A |
same | 09 03 01 09 03 01 09 00 09 03 01 09 03 01 09 00 | 0 | 'same' 0A |
same | 09 03 01 09 00 09 03 01 09 03 01 09 00 | 0 | 'different' 0A |
same | 09 01 03 61 03 03 62 02 01 09 01 03 61 03 03 62 02 01 | 0 | 'same' 0A |
same | 09 01 03 61 03 03 62 02 01 09 01 03 61 03 03 63 02 01 | 0 | 'different' 0A |
same | 09 01 03 61 03 03 62 02 01 09 01 03 61 02 03 62 02 01 | 0 | 'different' 0A |
same | 09 01 03 61 03 00 02 01 09 01 03 61 02 00 03 01 | 0 | 'different' 0A |
same | 04 05 04 80 05 | 0 | 'same' 0A |
same | 06 03 61 06 03 61 | 0 | 'same' 0A |
same | | 1 | | 'amf: refused Truncated at 0' 0A
same | 01 | 1 | | 'amf: refused Truncated at 1' 0A
same | 12 01 | 1 | | 'amf: refused BadMarker at 0' 0A
same | 01 12 | 1 | | 'amf: refused BadMarker at 1' 0A
same | 06 03 61 06 00 | 1 | | 'amf: refused BadTextIndex at 4' 0A
same | 09 01 01 09 00 | 1 | | 'amf: refused BadReference at 4' 0A
same | 01 02 03 | 1 | | 'amf: refused Trailing at 2' 0A
"#,
};

#[test]
fn comparisons(rt: HostRuntime) {
    check_rows(&rt, rt.alloc(), &PAIRS);
}

/// Words that say the same as the one word `canon`.
static SAME_WORDS: Table = Table {
    rows: 3,
    fields: 5,
    text: r#"
canon | 01 | 0 | 01 |
canon --from amf3 | 01 | 0 | 01 |
canon --to=amf3 --from=amf3 | 01 | 0 | 01 |
"#,
};

#[test]
fn words_for_amf_3(rt: HostRuntime) {
    check_rows(&rt, rt.alloc(), &SAME_WORDS);
}

/// Words without a reading.
static NO_READING: Table = Table {
    rows: 43,
    fields: 5,
    text: r#"
| 01 | 2 | | 'amf: usage' 0A
cannon | 01 | 2 | | 'amf: usage' 0A
canon canon | 01 | 2 | | 'amf: usage' 0A
same canon | 01 | 2 | | 'amf: usage' 0A
same -- | 01 | 2 | | 'amf: usage' 0A
canon --from amf3 --from=amf3 | 01 | 2 | | 'amf: usage' 0A
canon --from amf | 01 | 2 | | 'amf: usage' 0A
canon --to= | 01 | 2 | | 'amf: usage' 0A
check --from=amf3 x | 01 | 2 | | 'amf: usage' 0A
check --to=amf3 | 01 | 2 | | 'amf: usage' 0A
check --from=file | 01 | 2 | | 'amf: usage' 0A
canon --from packet --to amf3 | 01 | 2 | | 'amf: usage' 0A
canon --to packet | 01 | 2 | | 'amf: usage' 0A
show --from amf0 --from amf0 | 01 | 2 | | 'amf: usage' 0A
json --layout wide | 01 | 2 | | 'amf: usage' 0A
json --layout compact --layout=compact | 01 | 2 | | 'amf: usage' 0A
json --to amf3 | 01 | 2 | | 'amf: usage' 0A
serve | 01 | 2 | | 'amf: usage' 0A
serve --port=0 --workers=1 | 01 | 2 | | 'amf: usage' 0A
serve --port=65536 --workers=1 --each=1 | 01 | 2 | | 'amf: usage' 0A
serve --port=-1 --workers=1 --each=1 | 01 | 2 | | 'amf: usage' 0A
serve --port=0 --workers=0 --each=1 | 01 | 2 | | 'amf: usage' 0A
serve --port=0 --workers=65 --each=1 | 01 | 2 | | 'amf: usage' 0A
serve --port=0 --workers=1 --each=0 | 01 | 2 | | 'amf: usage' 0A
serve --port=0 --workers=1 --each=1000001 | 01 | 2 | | 'amf: usage' 0A
serve --port=0 --workers=1 --each=1 --from=amf3 | 01 | 2 | | 'amf: usage' 0A
gen | 01 | 2 | | 'amf: usage' 0A
gen --seed 1 | 01 | 2 | | 'amf: usage' 0A
gen --seed=1 --size=0 | 01 | 2 | | 'amf: usage' 0A
gen --seed=1 --size=1000001 | 01 | 2 | | 'amf: usage' 0A
gen --seed=4294967296 --size=1 | 01 | 2 | | 'amf: usage' 0A
gen --seed=00000000001 --size=1 | 01 | 2 | | 'amf: usage' 0A
gen --seed=+1 --size=1 | 01 | 2 | | 'amf: usage' 0A
gen --seed= --size=1 | 01 | 2 | | 'amf: usage' 0A
gen --seed -1 --size 1 | 01 | 2 | | 'amf: usage' 0A
canon --from sol --to amf3 | 00 BF 00 00 00 17 'TCSO' 00 04 00 00 00 00 00 01 74 00 00 00 00 00 01 61 01 01 00 | 2 | | 'amf: usage' 0A
canon --from=sol --to=packet | 00 BF 00 00 00 17 'TCSO' 00 04 00 00 00 00 00 01 74 00 00 00 00 00 01 61 01 01 00 | 2 | | 'amf: usage' 0A
canon --to sol | 00 BF 00 00 00 17 'TCSO' 00 04 00 00 00 00 00 01 74 00 00 00 00 00 01 61 01 01 00 | 2 | | 'amf: usage' 0A
bytes --from amf3 | '{"amf":"amf3","root":1}' | 2 | | 'amf: usage' 0A
bytes bytes | '{"amf":"amf3","root":1}' | 2 | | 'amf: usage' 0A
version version | | 2 | | 'amf: usage' 0A
version --from=amf3 | | 2 | | 'amf: usage' 0A
--version | | 2 | | 'amf: usage' 0A
"#,
};

#[test]
fn words_without_a_reading(rt: HostRuntime) {
    check_rows(&rt, rt.alloc(), &NO_READING);
}

/// Streams that fail.
static FAULTS: Table = Table {
    rows: 26,
    fields: 9,
    text: r#"
# Streams that fail at once.
canon | 01 | 3 | | 'amf: read fault' 0A | 100 1 | 0 | 0 |
canon | 01 | 4 | | 'amf: write fault' 0A | 100 1 | 0 | | 0
# A front of the output is written.
same | 01 01 | 4 | 'sa' | 'amf: write fault' 0A | 100 | 0 | | 1
canon | 04 C0 80 80 00 | 4 | 04 C0 | 'amf: write fault' 0A | 100 | 0 | | 1
gen --seed 1 --size 3 | | 4 | 'no' | 'amf: write fault' 0A | 1 | 0 | | 1
json | 01 | 4 | '{' 0A | 'amf: write fault' 0A | 100 | 0 | | 1
bytes | '{"amf":"amf3","root":"a"}' | 4 | 06 03 | 'amf: write fault' 0A | 100 | 0 | | 1
version | | 4 | 'am' | 'amf: write fault' 0A | 1 | 0 | | 1
# The read behind the input fails, unless a refusal comes before.
same | 01 | 3 | | 'amf: read fault' 0A | 100 | 0 | 1 |
same | 01 01 | 3 | | 'amf: read fault' 0A | 100 | 0 | 1 |
same | 01 12 | 1 | | 'amf: refused BadMarker at 1' 0A | 100 | 0 | 1 |
same | 12 | 1 | | 'amf: refused BadMarker at 0' 0A | 100 | 0 | 1 |
canon | 01 | 3 | | 'amf: read fault' 0A | 100 | 0 | 1 |
canon | 09 | 3 | | 'amf: read fault' 0A | 100 | 0 | 1 |
canon | 12 | 1 | | 'amf: refused BadMarker at 0' 0A | 100 | 0 | 1 |
check --from=sol | 00 BF 00 00 00 17 'TCSO' 00 04 00 00 00 00 00 01 74 00 00 00 00 00 01 61 01 01 00 | 3 | | 'amf: read fault' 0A | 100 | 0 | 1 |
json | 01 | 3 | | 'amf: read fault' 0A | 100 | 0 | 1 |
check --from=sol | 00 BE | 1 | | 'amf: refused BadSignature at 0' 0A | 100 | 0 | 1 |
canon --from packet | 00 02 00 00 | 3 | | 'amf: read fault' 0A | 1 | 0 | 0 |
canon --from packet | 00 02 00 00 | 3 | | 'amf: read fault' 0A | 1 | 0 | 1 |
canon --from packet | 00 02 00 00 | 1 | | 'amf: refused BadVersion at 0' 0A | 1 | 0 | 2 |
canon --from packet | 00 02 00 00 | 1 | | 'amf: refused BadVersion at 0' 0A | 1 | 0 | 3 |
# No byte of the input is asked for.
gen --seed 1 --size 3 | 12 | 0 | 'nodes 3 bytes 27 sum 931' 0A | | 1 | 0 | 0 |
# Behind the program's name stands its version.
version | 12 | 0 | 'amf ' | | 1 | 0 | 0 |
# A text is read to its end before it is judged.
bytes | '{"amf":"amf3","root":1}' | 3 | | 'amf: read fault' 0A | 100 1 | 0 | 0 |
bytes | '[' | 3 | | 'amf: read fault' 0A | 100 | 0 | 1 |
"#,
};

#[test]
fn streams_that_fail(rt: HostRuntime) {
    check_rows(&rt, rt.alloc(), &FAULTS);
}

/// Streams that never fail.
#[test]
fn faultless_streams(rt: HostRuntime) {
    let alloc = rt.alloc();
    let input = FaultlessSource::new(alloc, &[0x04, 0x80, 0x05], 1, 0);
    let mut input = input.expect(&rt, "a source");
    let mut output = FaultlessSink::new(alloc, 9).expect(&rt, "a sink");
    let mut line = FaultlessSink::new(alloc, 0).expect(&rt, "a sink");
    let status = run_alone(&rt, alloc, "canon", &mut input, &mut output, &mut line);
    assert!(rt; status == 0);
    assert!(rt; output.as_bytes() == [0x04, 0x05].as_slice());
    assert!(rt; !line.has_dropped());
}
