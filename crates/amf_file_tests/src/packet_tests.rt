ghost use Rattle.std.specs.Prelude.{◌≡◌, true, [], IfOk};
ghost use Rattle.amf_wire.specs.Text.{IsText};
ghost use Rattle.amf_packet.specs.Content.{packet_of};
ghost use Rattle.amf_packet.specs.Packet.{is_version};
ghost use Rattle.amf_packet.specs.WrittenPacket.{HasTexts};

use crate::checks::{bytes_of, field, holds, is};
use amf_fixtures::end_told;
use amf_graph::{Builder, Lack, LackKind, Rooted, Value};
use amf_io::{Cursor, MemorySource, ReadEnd};
use amf_packet::{
    Body, Headers, Message, Messages, Packet, PacketEnd, packet_rows, packet_verdict_rows,
    packets_have_one_verdict, read_packet, write_packet,
};
use amf_test_rows::{Row, Table};
use amf_wire::{Name, is_amf_text};
use std::alloc::Global;
use std::process::Abort;

/// Two headers and two messages in all forms, with a flag, lengths and texts that no writer gives.
const ODD: &[u8] = b"\x00\x03\x00\x02\
    \x00\x01h\x07\x12\x34\x56\x78\x0A\x00\x00\x00\x01\x0C\x00\x00\x00\x02hi\
    \x00\x00\x00\x00\x00\x00\x00\x11\x04\x80\x05\
    \x00\x02\
    \x00\x01t\x00\x02/1\x00\x00\x00\x01\x0A\x00\x00\x00\x01\x11\x04\x05\
    \x00\x00\x00\x01r\x99\x99\x99\x99\x0A\x00\x00\x00\x02\x11\x01\x05";

/// The same packet as it is written behind a byte that was there.
const CANONICAL: &[u8] = b"\xAA\x00\x03\x00\x02\
    \x00\x01h\x01\xFF\xFF\xFF\xFF\x0A\x00\x00\x00\x01\x02\x00\x02hi\
    \x00\x00\x00\xFF\xFF\xFF\xFF\x11\x04\x05\
    \x00\x02\
    \x00\x01t\x00\x02/1\xFF\xFF\xFF\xFF\x0A\x00\x00\x00\x01\x11\x04\x05\
    \x00\x00\x00\x01r\xFF\xFF\xFF\xFF\x11\x09\x05\x01\x01\x01";

/// Two messages, of which the second has the empty name in an object, and AMF 3 behind it.
const NAMELESS: &[u8] = b"\x00\x00\x00\x00\x00\x02\
    \x00\x00\x00\x00\x00\x00\x00\x00\x05\
    \x00\x00\x00\x00\x00\x00\x00\x00\x0A\x00\x00\x00\x02\x03\x00\x00\x05\x00\x00\x09\x11\x01";

/// What is read of these bytes within a limit, in pieces of at most so many.
fn read_of(alloc: Global, bytes: &[u8], limit: u16, most: usize) -> Result<Packet, ReadEnd>
    ensures version { IfOk result (λ packet. is_version packet.version ≡ true) }
    ensures texts { IfOk result (λ packet. HasTexts (packet_of packet)) }
{
    let mut source = MemorySource::new(alloc, bytes, most, 0, &[])?;
    let mut cursor = Cursor::new(alloc, &mut source, limit as u32)?;
    read_packet(alloc, &mut cursor)
}

/// Writes the packet that is read of these bytes.
fn write(
    rt: &impl Abort,
    alloc: Global,
    bytes: &[u8],
    most: usize,
    out: &mut Vec<u8>,
) -> Result<(), PacketEnd> {
    let packet = read_of(alloc, bytes, 200, most).expect(rt, "a packet");
    write_packet(alloc, &packet, out)
}

/// Reads a packet in pieces of at most so many bytes, and compares what is written of it behind a byte that was there.
fn is_written(rt: &impl Abort, alloc: Global, most: usize) {
    let mut out = vec![in alloc; 0xAA].expect(rt, "memory");
    let end = write(rt, alloc, ODD, most, &mut out);
    holds(rt, end == Ok(()), "an end");
    holds(rt, out.as_slice() == CANONICAL, "what is written");
}

#[test]
fn keeps_names_flags_and_forms(rt: HostRuntime) {
    packet_rows();
    packet_verdict_rows();
    packets_have_one_verdict();
    is_written(&rt, rt.alloc(), 1);
    is_written(&rt, rt.alloc(), 65536);
}

/// Bytes that are refused within a limit of 30, for a reason at a place.
static REFUSED: Table = Table {
    rows: 10,
    fields: 2,
    text: "
 | Truncated 0
0002 | BadVersion 0
0000 00 | Truncated 2
0000 0000 00 | Truncated 4
0000 0001 0002'h' | Truncated 6
0000 0001 0001 FF | BadText 6
0000 0001 0000 01 00 | Truncated 7
0000 0001 0000 01 00000000 04 | BadMarker 11
# No value knows the tables of the one before.
0000 0000 0002 0000 0000 00000000 0A 00000000 0000 0000 00000000 07 0000 | BadReference 27
# The limit stands inside the length of the second header.
0003 0002 0001'h' 07 12345678 0A 00000001 0C 00000002'hi' 0000 00 00000000 11 04 8005 0002 0001't' 0002'/1' 00000001 0A 00000001 11 04 05 0000 0001'r' 99999999 0A 00000002 11 01 05 | TooLarge 27
",
};

/// Why bytes are refused within a limit of 30, in pieces of at most so many.
fn refusal(rt: &impl Abort, alloc: Global, bytes: &[u8], most: usize) -> ReadEnd {
    match read_of(alloc, bytes, 30, most) {
        Ok(_) => panic!(rt; "a packet"),
        Err(end) => end,
    }
}

fn is_refused(rt: &impl Abort, alloc: Global, row: Row<'_>, bytes: &[u8], most: usize) {
    let end = refusal(rt, alloc, bytes, most);
    let told = end_told(alloc, end).expect(rt, "memory");
    is(rt, row, &told, field(rt, row, 1));
}

fn is_refused_in_pieces(rt: &impl Abort, alloc: Global, row: Row<'_>) {
    let bytes = bytes_of(rt, alloc, row, 0);
    is_refused(rt, alloc, row, &bytes, 1);
    is_refused(rt, alloc, row, &bytes, 65536);
}

#[test]
fn refuses_the_first_wrong_field(rt: HostRuntime) {
    for row in REFUSED.rows(rt.alloc()).expect(&rt, "rows").iter() {
        is_refused_in_pieces(&rt, rt.alloc(), *row);
    }
}

#[test]
fn tells_which_value_is_not_written(rt: HostRuntime) {
    let lack = Lack {
        kind: LackKind::EmptyName,
        node: 1,
    };
    let mut out = vec![in rt.alloc(); 0xAA].expect(&rt, "memory");
    let end = write(&rt, rt.alloc(), NAMELESS, 65536, &mut out);
    holds(
        &rt,
        end == Err(PacketEnd::NoSpelling { value: 1, lack }),
        "the lack",
    );
    holds(&rt, out.as_slice() == b"\xAA".as_slice(), "nothing written");
}

/// A text of so many bytes.
fn letters(rt: &impl Abort, alloc: Global, size: usize) -> Vec<u8>
    ensures { IsText result.items }
{
    let text = vec![in alloc; b'a'; size].expect(rt, "memory");
    assert!(rt; is_amf_text(&text), "a text");
    text
}

fn null(rt: &impl Abort, alloc: Global) -> Rooted {
    let builder = Builder::new(alloc).expect(rt, "a builder");
    match builder.finish(Value::Null) {
        Ok(graph) => graph,
        Err(_) => panic!(rt; "an open node"),
    }
}

/// A message of null with this target.
fn message(rt: &impl Abort, alloc: Global, target: &[u8]) -> Message
    requires { IsText target.now }
    ensures target { result.target ≡ target.now }
    ensures response { result.response ≡ [] }
{
    Message {
        target: Name::of_bytes(alloc, target).expect(rt, "a name"),
        response: Name::of_bytes(alloc, b"").expect(rt, "a name"),
        body: Body::Plain(null(rt, alloc)),
    }
}

/// A packet of one message whose target has one byte too many.
fn too_long(rt: &impl Abort, alloc: Global) -> Packet
    ensures version { is_version result.version ≡ true }
    ensures texts { HasTexts (packet_of result) }
{
    let target = letters(rt, alloc, 65536);
    let mut messages = Vec::new(alloc);
    messages
        .push(message(rt, alloc, &target))
        .expect(rt, "memory");
    Packet {
        version: 1,
        headers: Headers::of_vec(Vec::new(alloc)),
        messages: Messages::of_vec(messages),
    }
}

#[test]
fn writes_no_long_text(rt: HostRuntime) {
    let packet = too_long(&rt, rt.alloc());
    let mut out = vec![in rt.alloc(); 0xAA].expect(&rt, "memory");
    let end = write_packet(rt.alloc(), &packet, &mut out);
    holds(&rt, end == Err(PacketEnd::LongText(0)), "a long text");
    holds(&rt, out.as_slice() == b"\xAA".as_slice(), "nothing written");
}

/// Ends, and how they are told.
static ENDS: [(PacketEnd, &str); 4] = [
    (PacketEnd::TooMany, "too many headers or messages"),
    (PacketEnd::LongText(3), "a long text with value 3"),
    (
        PacketEnd::NoSpelling {
            value: 1,
            lack: Lack {
                kind: LackKind::EmptyName,
                node: 2,
            },
        },
        "no spelling of value 1 from node 2",
    ),
    (PacketEnd::Memory, "no memory"),
];

#[test]
fn says_why_nothing_was_written(rt: HostRuntime) {
    for (end, words) in ENDS.iter() {
        let said = format!(in rt.alloc(); "{end}").expect(&rt, "memory");
        holds(&rt, said.as_str() == *words, words);
    }
}
