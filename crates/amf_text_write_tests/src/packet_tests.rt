use crate::checks::{bytes_of, field, graph_of, is_text, layout_of};
use amf_fixtures::graph0;
use amf_test_rows::{Row, Table};
use amf_text_write::{HeaderTexts, MessageTexts, PacketForm};
use amf_wire::is_amf_text;
use std::alloc::Global;
use std::process::Abort;

/// The double 1 in AMF 0.
static ONE: &[u8] = b"\x00\x3f\xf0\x00\x00\x00\x00\x00\x00";

/// A packet of one message: its version, the layout, the name of a header with the value 1, if it has one, the message's target
/// and response, the form, the bytes of its value, which is in AMF 3 where it is a call, and the text.
static PACKETS: Table = Table {
    rows: 2,
    fields: 8,
    text: r#"
0 | compact | 'h' | 't' | '' | plain | 0a 00 00 00 02 0a 00 00 00 00 07 00 01 | '{"amf":"packet","headers":[{"form":"plain","must":true,"name":"h","root":1}],"messages":[{"form":"plain","nodes":{"1":[]},"response":"","root":[{"$node":"1"},{"$node":"1"}],"target":"t"}],"version":0}' 0a
3 | compact | - | 'null' | '/1' | call | 0a 43 4f 'flex.messaging.messages.RemotingMessage' 09 'body' 13 'operation' 17 'destination' 13 'timestamp' 09 05 01 04 02 05 40 08 00 00 00 00 00 00 06 07 'add' 06 15 'calculator' 05 + 8*00 | '{"amf":"packet","headers":[],"messages":[{"form":"call","response":"/1","root":{"$class":"flex.messaging.messages.RemotingMessage","$names":["body","operation","destination","timestamp"],"$sealed":{"body":[2,{"$double":3}],"destination":"calculator","operation":"add","timestamp":{"$double":0}}},"target":"null"}],"version":3}' 0a
"#,
};

/// Tells the header of a row, where it has one.
fn tell_header(rt: &impl Abort, alloc: Global, row: Row<'_>, headers: &mut HeaderTexts) {
    if field(rt, row, 2) == "-" {
        return;
    }
    let name = bytes_of(rt, alloc, row, 2);
    assert!(rt; is_amf_text(&name), "a text");
    let graph = graph0(alloc, ONE).expect(rt, "a graph");
    let told = headers.header(&name, true, PacketForm::Plain, &graph);
    told.expect(rt, "memory");
}

/// Tells the message of a row.
fn tell_message(rt: &impl Abort, alloc: Global, row: Row<'_>, messages: &mut MessageTexts) {
    let is_call = field(rt, row, 5) == "call";
    let form = if is_call {
        PacketForm::Call
    } else {
        PacketForm::Plain
    };
    let target = bytes_of(rt, alloc, row, 3);
    let response = bytes_of(rt, alloc, row, 4);
    assert!(rt; is_amf_text(&target), "a text");
    assert!(rt; is_amf_text(&response), "a text");
    let graph = graph_of(rt, alloc, row, 6, is_call);
    let told = messages.message(&target, &response, form, &graph);
    told.expect(rt, "memory");
}

fn writes_row(rt: &impl Abort, alloc: Global, row: Row<'_>) {
    let mut headers = HeaderTexts::new(alloc, layout_of(rt, row, 1)).expect(rt, "memory");
    tell_header(rt, alloc, row, &mut headers);
    let mut messages = headers.into_messages().expect(rt, "memory");
    tell_message(rt, alloc, row, &mut messages);
    let version = if field(rt, row, 0) == "3" { 3 } else { 0 };
    let text = messages.into_bytes(version).expect(rt, "memory");
    is_text(rt, alloc, row, 7, &text);
}

#[test]
fn writes_packets(rt: HostRuntime) {
    for row in PACKETS.rows(rt.alloc()).expect(&rt, "rows").iter() {
        writes_row(&rt, rt.alloc(), *row);
    }
}
