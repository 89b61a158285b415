ghost use Rattle.std.specs.Prelude.{IfOk};
ghost use Rattle.amf_packet.specs.Content.{packet_of};
ghost use Rattle.amf_json.specs.Ready.{IsReadyPacket};

use amf_io::{Cursor, MemorySource, ReadEnd};
use amf_json::{Layout, packet_is_ready, packet_json};
use amf_packet::{Packet, read_packet};
use std::alloc::Global;
use std::process::Abort;

/// Headers and messages in all forms.
const ALL_FORMS: &[u8] = b"\x00\x03\x00\x02\
    \x00\x01h\x07\x12\x34\x56\x78\x0A\x00\x00\x00\x01\x0C\x00\x00\x00\x02hi\
    \x00\x00\x00\x00\x00\x00\x00\x11\x04\x05\
    \x00\x02\
    \x00\x01t\x00\x02/1\x00\x00\x00\x01\x0A\x00\x00\x00\x01\x11\x04\x05\
    \x00\x00\x00\x01r\x99\x99\x99\x99\x0A\x00\x00\x00\x02\x11\x01\x05";

const ALL_FORMS_TOLD: &[u8] = b"{\"amf\":\"packet\",\"headers\":[\
    {\"form\":\"plain\",\"must\":true,\"name\":\"h\",\"root\":[\"hi\"]},\
    {\"form\":\"amf3\",\"must\":false,\"name\":\"\",\"root\":5}],\"messages\":[\
    {\"form\":\"call\",\"response\":\"/1\",\"root\":5,\"target\":\"t\"},\
    {\"form\":\"amf3\",\"response\":\"r\",\"root\":[null,null],\"target\":\"\"}],\"version\":3}\n";

/// A message whose plain array holds itself.
const CYCLE: &[u8] = b"\x00\x00\x00\x00\x00\x01\
    \x00\x01t\x00\x00\x00\x00\x00\x00\x0A\x00\x00\x00\x01\x07\x00\x00";

const CYCLE_TOLD: &[u8] = b"{\"amf\":\"packet\",\"headers\":[],\"messages\":[\
    {\"form\":\"plain\",\"nodes\":{\"0\":[{\"$node\":\"0\"}]},\"response\":\"\",\"root\":{\"$node\":\"0\"},\"target\":\"t\"}],\
    \"version\":0}\n";

const EMPTY: &[u8] = b"\x00\x01\x00\x00\x00\x00";

const EMPTY_TOLD: &[u8] =
    b"{\n  \"amf\": \"packet\",\n  \"headers\": [],\n  \"messages\": [],\n  \"version\": 1\n}\n";

/// What is read of these bytes.
fn read_of(alloc: Global, bytes: &[u8]) -> Result<Packet, ReadEnd>
    ensures { IfOk result (λ packet. IsReadyPacket (packet_of packet)) }
{
    let mut source = MemorySource::new(alloc, bytes, 100, 0, &[])?;
    let mut cursor = Cursor::new(alloc, &mut source, 200)?;
    let packet = read_packet(alloc, &mut cursor)?;
    packet_is_ready(&packet);
    Ok(packet)
}

fn is_told(rt: &impl Abort, alloc: Global, layout: Layout, packet: &Packet, told: &[u8])
    requires { IsReadyPacket (packet_of packet.now) }
{
    let text = packet_json(alloc, layout, packet).expect(rt, "memory");
    assert!(rt; text.as_slice() == told, "a text");
}

/// Reads a packet, and compares its text.
fn tells(rt: &impl Abort, alloc: Global, layout: Layout, bytes: &[u8], told: &[u8]) {
    let packet = read_of(alloc, bytes).expect(rt, "a packet");
    is_told(rt, alloc, layout, &packet, told);
}

#[test]
fn tells_packets(rt: HostRuntime) {
    tells(&rt, rt.alloc(), Layout::Compact, ALL_FORMS, ALL_FORMS_TOLD);
    tells(&rt, rt.alloc(), Layout::Compact, CYCLE, CYCLE_TOLD);
    tells(&rt, rt.alloc(), Layout::Lines, EMPTY, EMPTY_TOLD);
}
