use crate::checks::holds;
use amf_io::{Cursor, MemorySource, ReadEnd};
use amf_listings::{count_packet_nodes, packet_has_lowering, show_packet};
use amf_packet::{Packet, read_packet};
use std::alloc::Global;
use std::process::Abort;

/// A header that must be understood, with the array of "hi" in AMF 3; a call of null; and the array of an array.
const PACKET: &[u8] = b"\x00\x03\x00\x01\
    \x00\x01h\x07\x00\x00\x00\x00\x11\x09\x03\x01\x06\x05hi\
    \x00\x02\
    \x00\x02\"t\x00\x02/1\x00\x00\x00\x00\x0A\x00\x00\x00\x01\x11\x01\
    \x00\x00\x00\x00\x00\x00\x00\x00\x0A\x00\x00\x00\x01\x0A\x00\x00\x00\x00";

const LISTING: &[u8] = b">packet 3\n\
    header \"h\" 1\n\
    root #0\n\
    #0 array [\"hi\"] {}\n\
    message \"\\22t\" \"/1\" call\n\
    root null\n\
    message \"\" \"\" plain\n\
    root #0\n\
    #0 array [#1] {}\n\
    #1 array [] {}\n";

fn packet(alloc: Global) -> Result<Packet, ReadEnd> {
    let mut source = MemorySource::new(alloc, PACKET, 100, 0, &[])?;
    let mut cursor = Cursor::new(alloc, &mut source, 100)?;
    read_packet(alloc, &mut cursor)
}

fn is_listed(rt: &impl Abort, alloc: Global, packet: &Packet) {
    packet_has_lowering(packet);
    let mut out = vec![in alloc; b'>'].expect(rt, "memory");
    show_packet(alloc, packet, &mut out).expect(rt, "memory");
    holds(rt, out.as_slice() == LISTING, "the listing");
}

#[test]
fn lists_and_counts(rt: HostRuntime) {
    let packet = packet(rt.alloc()).expect(&rt, "a packet");
    is_listed(&rt, rt.alloc(), &packet);
    let nodes = count_packet_nodes(rt.alloc(), &packet).expect(&rt, "memory");
    holds(&rt, nodes == 3, "how many nodes");
}
