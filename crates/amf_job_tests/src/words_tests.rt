use crate::cases::{Case, field, put};
use crate::dials::dial_of_none;
use crate::runs::{Told, WHOLE, check, check_over};
use amf_test_rows::Table;
use std::alloc::Global;
use std::process::Abort;
use std::random::RandomSource;
use std::sync::Wait;
use std::thread::Threads;

/// Words that have no reading.
static NO_READING: Table = Table {
    rows: 52,
    fields: 1,
    text: "
flv
flv show
flv --do
flv --do=
flv --do Show
flv --do add
flv --do show --do drop
flv --do show --do=show
flv --do show show
flv --do show --size 1
flv --do show --from amf0
flv --do set --
rtmp
rtmp --do
rtmp --do drop
rtmp --size 1
rtmp --do rechunk
rtmp --do show --size 1
rtmp --do rechunk --size 0
rtmp --do rechunk --size 2147483648
rtmp --do rechunk --size 00000000256
rtmp --do rechunk --size 0x10
rtmp --do rechunk --size -1
rtmp --do rechunk --size=
rtmp --do rechunk --size 1 --size 1
call
call --port 1
call --target sum.sum
call --port 65536 --target sum.sum
call --port 00000000001 --target sum.sum
call --port -1 --target sum.sum
call --port= --target sum.sum
call --port 1 --target
call --port 1 --target -sum
call --port 1 --target sum.sum sum.sum
call --port 1 --target sum.sum --target sum.sum
call --port 1 --target sum.sum --polls 1
listen
listen --port 1
listen --port 1 --destination chat
listen --port 1 --polls 1
listen --destination chat --polls 1
listen --port 65536 --destination chat --polls 1
listen --port 1 --destination --polls 1
listen --port 1 --destination -chat --polls 1
listen --port 1 --destination chat --polls 0
listen --port 1 --destination chat --polls 1000001
listen --port 1 --destination chat --polls 00000000001
listen --port 1 --destination chat --polls -1
listen --port 1 --destination chat --polls 1 --polls 1
listen --port 1 --destination chat --polls 1 --target chat
listen --port 1 --destination chat --polls 1 chat
",
};

/// These words, and perhaps one more, have no reading, so the input is not looked at.
const USAGE: Case<'static> = Case {
    words: "",
    more: b"",
    input: b"\x01",
    status: 2,
    output: b"",
    line: b"amf: usage\n",
};

#[test]
fn no_reading(rt: HostRuntime) {
    let alloc = rt.alloc();
    for row in NO_READING.rows(alloc).expect(&rt, "rows").iter() {
        let words = field(&rt, *row, 0);
        check(&rt, alloc, row.line(), &Case { words, ..USAGE }, WHOLE);
    }
}

const CALL: Case<'static> = Case {
    words: "call --port=65535 --target",
    ..USAGE
};

const LISTEN: Case<'static> = Case {
    words: "listen --port=65535 --polls=1 --destination",
    ..USAGE
};

/// Runs with one word more, which has so many bytes before this one; that number is its line.
fn check_long<R: RandomSource + Threads + Wait + Abort + Sync>(
    rt: &R,
    alloc: Global,
    case: Case<'_>,
    length: u32,
    last: u8,
    ports: &[u16],
) {
    let mut more = Vec::new(alloc);
    put(rt, &mut more, length as usize, b"a");
    put(rt, &mut more, 1, &[last]);
    let case = Case {
        more: &more,
        ..case
    };
    let mut dial = dial_of_none(rt, alloc);
    let told = Told {
        ports,
        faults: ports.len() as u64,
    };
    check_over(rt, alloc, length, &case, WHOLE, &mut dial, told);
}

/// A target and a destination have at most 65,535 bytes, and are UTF-8.
#[test]
fn targets(rt: HostRuntime) {
    let alloc = rt.alloc();
    for case in [CALL, LISTEN] {
        check_long(&rt, alloc, case, 65_535, b'a', &[]);
        check_long(&rt, alloc, case, 3, 0xFF, &[]);
    }
    // The arguments, null, are judged.
    let no_args = Case {
        status: 7,
        line: b"amf: no form NotArgs node 0 value 0\n",
        ..CALL
    };
    check_long(&rt, alloc, no_args, 65_534, b'a', &[]);
    // It dials, which fails.
    let no_link = Case {
        status: 10,
        line: b"amf: link fault\n",
        ..LISTEN
    };
    check_long(&rt, alloc, no_link, 65_534, b'a', &[65_535]);
}
