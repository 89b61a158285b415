use crate::checks::{field, holds, holds_of, number};
use crate::fields::{bits, integer};
use amf_test_rows::{Row, Table};
use amf_wire::{
    Name, NameEnd, Pattern, U29, U29Read, be16_at, be32_at, be64_at, first_bad, is_amf_text,
    one_shortest_u29, pattern_of, read_u29, sign29, unsign29, whole_numbers, whole_of,
    worked_facts, write_u29,
};
use std::alloc::Global;
use std::process::Abort;

/// Numbers and how they are spelled.
static NUMBERS: Table = Table {
    rows: 8,
    fields: 2,
    text: r"
0         | 00
127       | 7F
128       | 81 00
16383     | FF 7F
16384     | 81 80 00
2097151   | FF FF 7F
2097152   | 80 C0 80 00
536870911 | FF FF FF FF
",
};

fn number_of(rt: &impl Abort, row: Row<'_>) -> U29 {
    U29::new(number(rt, row, 0)).expect(rt, "a number of 29 bits")
}

fn spells(rt: &impl Abort, alloc: Global, row: Row<'_>) {
    let value = number_of(rt, row);
    let bytes = row.bytes(alloc, 1).expect(rt, "bytes");
    let written = write_u29(value);
    let used = written.len;
    holds_of(rt, row, 0, written.as_slice() == bytes.as_slice());
    let read = read_u29(&bytes) == U29Read::Whole { value, used };
    holds_of(rt, row, 1, read);
}

#[test]
fn spells_numbers(rt: HostRuntime) {
    for row in NUMBERS.rows(rt.alloc()).expect(&rt, "rows").iter() {
        spells(&rt, rt.alloc(), *row);
    }
    holds(&rt, U29::new(1 << 29).is_none(), "more than 29 bits");
    let short = read_u29(&[0x80, 0x80, 0x80]) == U29Read::Short;
    holds(&rt, short, "a fourth byte is lacking");
}

/// Numbers of 29 bits, and the integers that they stand for.
static INTEGERS: Table = Table {
    rows: 5,
    fields: 2,
    text: r"
0         | 0
268435455 | 268435455
268435456 | -268435456
536870911 | -1
5         | 5
",
};

fn is_integer(rt: &impl Abort, row: Row<'_>) {
    let number = number_of(rt, row);
    let integer = i32::try_from(integer(rt, row, 1)).expect(rt, "an integer");
    holds_of(rt, row, 0, sign29(number) == integer);
    holds_of(rt, row, 1, unsign29(integer) == Some(number));
}

#[test]
fn reads_integers(rt: HostRuntime) {
    for row in INTEGERS.rows(rt.alloc()).expect(&rt, "rows").iter() {
        is_integer(&rt, *row);
    }
    holds(&rt, unsign29(268_435_456).is_none(), "too large");
    holds(&rt, unsign29(-268_435_457).is_none(), "too small");
}

#[test]
fn reads_big_endian(rt: HostRuntime) {
    let bytes = [9, 1, 2, 3, 4, 5, 6, 7, 8];
    holds(&rt, be16_at(&bytes, 1) == 0x0102, "16 bits");
    holds(&rt, be32_at(&bytes, 1) == 0x0102_0304, "32 bits");
    holds(&rt, be64_at(&bytes, 1) == 0x0102_0304_0506_0708, "64 bits");
}

/// Doubles and the whole numbers that they are, if any.
static DOUBLES: Table = Table {
    rows: 16,
    fields: 2,
    text: r"
0000000000000000 | 0
3FF0000000000000 | 1
BFF0000000000000 | -1
4014000000000000 | 5
C014000000000000 | -5
41AFFFFFFE000000 | 268435455
433FFFFFFFFFFFFF | 9007199254740991
C33FFFFFFFFFFFFF | -9007199254740991
# Minus zero, a half, one and a half, 2^53, 2^60, the least number, infinity and a not-a-number.
8000000000000000 | none
3FE0000000000000 | none
3FF8000000000000 | none
4340000000000000 | none
43B0000000000000 | none
0000000000000001 | none
7FF0000000000000 | none
7FF8000000000000 | none
",
};

fn is_double(rt: &impl Abort, row: Row<'_>) {
    let pattern = Pattern(bits(rt, row, 0));
    if field(rt, row, 1) == "none" {
        holds_of(rt, row, 0, whole_of(pattern).is_none());
    } else {
        let whole = integer(rt, row, 1);
        holds_of(rt, row, 0, whole_of(pattern) == Some(whole));
        holds_of(rt, row, 1, pattern_of(whole) == Some(pattern));
    }
}

#[test]
fn knows_whole_numbers(rt: HostRuntime) {
    for row in DOUBLES.rows(rt.alloc()).expect(&rt, "rows").iter() {
        is_double(&rt, *row);
    }
    for large in [9_007_199_254_740_992, i64::MAX, i64::MIN] {
        holds(&rt, pattern_of(large).is_none(), "a large number");
    }
}

/// Bytes, and where they are no text, if anywhere.
static TEXTS: Table = Table {
    rows: 12,
    fields: 2,
    text: r"
                                    | none
'plain'                             | none
C3 A9  E2 82 AC  F0 9F 98 80        | none
C0 80                               | none
ED A0 80  ED BF BF                  | none
FF                                  | 0
41  C0 81                           | 1
41  ED                              | 1
41  42  E2 82                       | 2
E0 9F 80                            | 0
F4 90 80 80                         | 0
41  80                              | 1
",
};

fn is_judged(rt: &impl Abort, alloc: Global, row: Row<'_>) {
    let bytes = row.bytes(alloc, 0).expect(rt, "bytes");
    let bad = match field(rt, row, 1) {
        "none" => None,
        _ => Some(number(rt, row, 1) as usize),
    };
    holds_of(rt, row, 0, first_bad(&bytes) == bad);
    holds_of(rt, row, 1, is_amf_text(&bytes) == bad.is_none());
}

#[test]
fn judges_texts(rt: HostRuntime) {
    for row in TEXTS.rows(rt.alloc()).expect(&rt, "rows").iter() {
        is_judged(&rt, rt.alloc(), *row);
    }
}

#[test]
fn keeps_names(rt: HostRuntime) {
    let name = Name::from_bytes(rt.alloc(), b"caf\xC3\xA9").expect(&rt, "a name");
    holds(&rt, name.as_bytes() == b"caf\xC3\xA9".as_slice(), "a text");
    let copied = name.copy(rt.alloc()).expect(&rt, "memory");
    holds(&rt, copied.as_bytes() == name.as_bytes(), "a copy");
}

#[test]
fn keeps_other_bytes(rt: HostRuntime) {
    let name = Name::of_bytes(rt.alloc(), &[0x41, 0xFF]).expect(&rt, "a name");
    holds(&rt, name.as_bytes() == [0x41, 0xFF].as_slice(), "any bytes");
    let end = Name::from_bytes(rt.alloc(), &[0x41, 0xFF]).err();
    holds(&rt, end == Some(NameEnd::BadText(1)), "no text");
}

#[test]
fn laws_hold(_rt: HostRuntime) {
    worked_facts();
    one_shortest_u29();
    whole_numbers();
}
