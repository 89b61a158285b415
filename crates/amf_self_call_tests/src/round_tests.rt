ghost use Rattle.std.specs.Prelude.{◌≡◌};

use crate::ends::round_of;
use amf_fixtures::{graph0, graph3};
use amf_graph::{Builder, Part, Rooted, Shape, Value};
use amf_test_rows::{Row, Table};
use amf_wire::is_amf_text;
use std::alloc::Global;
use std::process::Abort;
use std::sync::Wait;

/// A target, arguments in AMF 3, and what comes back: of an array that holds itself and one object twice, of numbers, of names, of a
/// service and an operation that there are not, of targets without a dot, and of arguments that an operation does not take.
static ROUNDS: Table = Table {
    rows: 8,
    fields: 3,
    text: r"
'echo.echo' | 09 03 01 09 07 01 0A 0B 01 01 0A 04 09 02 | 09 07 01 0A 0B 01 01 0A 02 09 00
'sum.sum' | 09 05 01 04 02 04 03 | 05 4014000000000000
'names.names' | 09 03 01 0A 0B 01 03 'b' 04 01 03 'a' 04 02 01 | 09 05 01 06 03 'a' 06 03 'b'
'nobody.op' | 09 05 01 04 02 04 03 | 'Client.NoService: no such service'
'echo' | 09 01 01 | 'Client.NoService: no such service'
'' | 09 01 01 | 'Client.NoService: no such service'
'echo.other' | 09 01 01 | 'Client.NoOperation: no such operation'
'sum.sum' | 09 03 01 06 03 'a' | 'Service.Fault: wrong arguments'
",
};

/// A target and arguments in AMF 0 that may not be called: the target of a Flex request, one that is no text, arguments that are no
/// array or have a name, and some without a spelling, since an item has an empty name.
static UNCALLED: Table = Table {
    rows: 5,
    fields: 2,
    text: r"
'null' | 0A 00000000
FF | 0A 00000000
'echo.echo' | 05
'echo.echo' | 08 00000001 0001 'a' 05 0000 09
'echo.echo' | 0A 00000001 03 0000 05 0000 09
",
};

/// Ends the test where something does not hold of a row.
fn holds_of(rt: &impl Abort, row: Row<'_>, right: bool) {
    let line = row.line();
    assert!(rt; right, "line {line}");
}

/// Whether these bytes came back.
fn is_back(back: &Option<Vec<u8>>, wanted: &[u8]) -> bool {
    match back {
        Some(bytes) => bytes.as_slice() == wanted,
        None => false,
    }
}

fn round_row<R: Wait + Abort>(rt: &R, alloc: Global, row: Row<'_>) {
    let target = row.bytes(alloc, 0).expect(rt, "a target");
    let value = row.bytes(alloc, 1).expect(rt, "arguments");
    let wanted = row.bytes(alloc, 2).expect(rt, "what comes back");
    let args = graph3(alloc, &value).expect(rt, "a graph");
    let back = round_of(rt, alloc, &target, &args);
    holds_of(rt, row, is_back(&back, &wanted));
}

#[test]
fn rounds(rt: HostRuntime) {
    for row in ROUNDS.rows(rt.alloc()).expect(&rt, "rows").iter() {
        round_row(&rt, rt.alloc(), *row);
    }
}

fn uncalled_row<R: Wait + Abort>(rt: &R, alloc: Global, row: Row<'_>) {
    let target = row.bytes(alloc, 0).expect(rt, "a target");
    let value = row.bytes(alloc, 1).expect(rt, "a value");
    let args = graph0(alloc, &value).expect(rt, "a graph");
    let back = round_of(rt, alloc, &target, &args);
    holds_of(rt, row, back.is_none());
}

#[test]
fn no_rounds(rt: HostRuntime) {
    for row in UNCALLED.rows(rt.alloc()).expect(&rt, "rows").iter() {
        uncalled_row(&rt, rt.alloc(), *row);
    }
}

/// The bytes of a text of so many times `x` in AMF 3, without the marker.
fn long_text(rt: &impl Abort, alloc: Global, count: usize) -> Vec<u8> {
    let mut bytes = Vec::new(alloc);
    bytes.resize(count, b'x').expect(rt, "memory");
    bytes
}

/// An array of one text.
fn one_text(rt: &impl Abort, alloc: Global, text: &[u8]) -> Rooted {
    assert!(rt; is_amf_text(text), "a text");
    let mut builder = Builder::new(alloc).expect(rt, "a builder");
    let text = builder.text(text).expect(rt, "a text");
    let array = builder.open_node(Shape::Array).expect(rt, "an array");
    builder
        .put(array, Part::Item(Value::Text(text)))
        .expect(rt, "an item");
    builder.close_node(array);
    builder.whole(Value::Node(array))
}

/// Whether a text comes back, behind its marker and its length in three bytes, the last of them this.
fn comes_back<R: Wait + Abort>(rt: &R, alloc: Global, text: &[u8], last: u8) -> bool {
    let args = one_text(rt, alloc, text);
    match round_of(rt, alloc, b"echo.echo", &args) {
        Some(back) => back.starts_with(&[6, 0xFF, 0xFF, last]) && back.ends_with(text),
        None => false,
    }
}

/// The packet of a call has at most 1,048,576 bytes: 26 before its arguments, and 7 before the one text that they hold.
#[test]
fn the_longest_call(rt: HostRuntime) {
    let longest = long_text(&rt, rt.alloc(), 1_048_543);
    assert!(&rt;
        comes_back(&rt, rt.alloc(), &longest, 0x3F),
        "the longest call"
    );
    let longer = one_text(&rt, rt.alloc(), &long_text(&rt, rt.alloc(), 1_048_544));
    let back = round_of(&rt, rt.alloc(), b"echo.echo", &longer);
    assert!(&rt; is_back(&back, b"bad reply: \x08"), "a longer call");
}

/// A target has at most 65,535 bytes.
#[test]
fn a_target_that_is_too_long(rt: HostRuntime) {
    let target = long_text(&rt, rt.alloc(), 65_536);
    let args = one_text(&rt, rt.alloc(), b"x");
    let back = round_of(&rt, rt.alloc(), &target, &args);
    assert!(&rt; back.is_none(), "a target that is too long");
}
