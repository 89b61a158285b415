ghost use Rattle.std.specs.Prelude.{◌≡◌, false, All};
ghost use Rattle.amf_io.specs.Dial.{IsFresh};
ghost use Rattle.amf_io.specs.InMemory.{failures, sink_failures};

use crate::checks::holds;
use amf_io::{
    Dial, FaultlessDial, FaultlessLink, FaultlessSink, FaultlessSource, Joined, Link, MemoryDial,
    MemoryLink, MemorySink, MemorySource, OpenEnd, TcpDial, TcpLink,
};
use std::alloc::Global;
use std::io::{Read, Write};
use std::net::{TcpListener, TcpStream};
use std::process::Abort;

/// A link that gives one byte, and whose second read fails.
fn link(rt: &impl Abort, alloc: Global, byte: u8) -> MemoryLink
    ensures { IsFresh (failures result.source) (sink_failures result.sink) }
{
    let source = MemorySource::new(alloc, &[byte], 1, 0, &[1]).expect(rt, "a source");
    let sink = MemorySink::new(alloc, 1, &[]).expect(rt, "a sink");
    Joined { source, sink }
}

/// A dial of two links, whose second call fails.
fn dial_of_two(rt: &impl Abort, alloc: Global) -> MemoryDial<MemoryLink>
    ensures { result.links.out ≡ false }
{
    let mut links = Vec::new(alloc);
    links.push(link(rt, alloc, 7)).expect(rt, "memory");
    links.push(link(rt, alloc, 8)).expect(rt, "memory");
    MemoryDial::new(alloc, links, &[1]).expect(rt, "a dial")
}

/// A link without faults that gives one byte.
fn faultless_link(rt: &impl Abort, alloc: Global, byte: u8) -> FaultlessLink {
    let source = FaultlessSource::new(alloc, &[byte], 1, 0).expect(rt, "a source");
    let sink = FaultlessSink::new(alloc, 1).expect(rt, "a sink");
    Joined { source, sink }
}

/// A dial of one link.
fn faultless_dial(rt: &impl Abort, alloc: Global) -> FaultlessDial<FaultlessLink>
    ensures { result.links.out ≡ false }
{
    let mut links = Vec::new(alloc);
    links
        .push(faultless_link(rt, alloc, 9))
        .expect(rt, "memory");
    FaultlessDial::new(alloc, links).expect(rt, "a dial")
}

/// What a peer at a port says first: a byte, how the dial ends, or that it says nothing. Then the link is read once
/// more if asked, and goes back.
fn first_byte<D: Dial>(dial: &mut D, port: u16, again: bool) -> Result<Option<u8>, OpenEnd>
    requires { D.is_out dial.old ≡ false }
    ensures { D.is_out dial.new ≡ false }
{
    let mut link = dial.dial(port)?;
    let mut room = [0u8; 1];
    let first = link.read(&mut room);
    let byte = room[0];
    if again {
        let _ = link.read(&mut room);
    }
    dial.back(link);
    match first {
        Ok(1) => Ok(Some(byte)),
        _ => Ok(None),
    }
}

/// A port, whether its link is read once more, what is said there first, and how many faults there are then.
type Dialed = (u16, bool, Result<Option<u8>, OpenEnd>, u64);

/// Dials a port.
fn dials_one(rt: &impl Abort, dial: &mut MemoryDial<MemoryLink>, dialed: Dialed)
    requires { dial.old.links.out ≡ false }
    ensures { dial.new.links.out ≡ false }
{
    let (port, again, want, faults) = dialed;
    let got = first_byte(dial, port, again);
    holds(rt, got == want, "what is said first");
    holds(rt, dial.faults() == faults, "the faults");
}

/// Dials each port. The second call fails, and no link is left for the last one.
fn dials_each(rt: &impl Abort, dial: &mut MemoryDial<MemoryLink>)
    requires { dial.old.links.out ≡ false }
{
    dials_one(rt, dial, (80, false, Ok(Some(7)), 0));
    dials_one(rt, dial, (81, false, Err(OpenEnd::Failed), 1));
    dials_one(rt, dial, (82, true, Ok(Some(8)), 2));
    dials_one(rt, dial, (83, false, Err(OpenEnd::Failed), 3));
}

#[test]
fn a_dial_gives_its_links_in_order(rt: HostRuntime) {
    let mut dial = dial_of_two(&rt, rt.alloc());
    dials_each(&rt, &mut dial);
    let ports = [80u16, 81, 82, 83];
    holds(&rt, dial.asked() == ports.as_slice(), "the ports");
    holds(&rt, dial.returned().len() == 2, "two links came back");
}

#[test]
fn a_dial_without_faults_gives_what_it_has(rt: HostRuntime) {
    let mut dial = faultless_dial(&rt, rt.alloc());
    let first = first_byte(&mut dial, 80, true);
    holds(&rt, first == Ok(Some(9)), "its link");
    let none = first_byte(&mut dial, 80, false);
    holds(&rt, none == Err(OpenEnd::Memory), "no link is left");
    holds(&rt, dial.returned().len() == 1, "one link came back");
}

/// Whether each side reads what the other one writes.
fn meet(link: &mut TcpLink, peer: &mut TcpStream) -> bool {
    let mut room = [0u8; 2];
    if !matches!(peer.write(b"hi"), Ok(2)) || link.read(&mut room) != Ok(2) || &room != b"hi" {
        return false;
    }
    link.write(b"ok") == Ok(2) && matches!(peer.read(&mut room), Ok(2)) && &room == b"ok"
}

/// Whether the peer finds its link closed.
fn is_closed(peer: &mut TcpStream) -> bool {
    matches!(peer.read(&mut [0u8; 2]), Ok(0))
}

/// Dials a listener, which answers.
fn dials<D: Dial<Link = TcpLink>>(rt: &impl Abort, dial: &mut D, port: u16, listener: &TcpListener)
    requires { D.is_out dial.old ≡ false }
    ensures { D.is_out dial.new ≡ false }
{
    let mut link = match dial.dial(port) {
        Ok(link) => link,
        Err(_) => panic!(rt; "no link"),
    };
    let (mut peer, _) = listener.accept().expect(rt, "a peer");
    holds(rt, meet(&mut link, &mut peer), "what is written is read");
    dial.back(link);
    holds(rt, is_closed(&mut peer), "a link that went back is closed");
}

/// A connection is made by the system before the listener asks for it, so one thread plays both sides.
#[test]
fn dials_over_loopback(rt: HostRuntime) {
    let listener = TcpListener::bind(&rt, "127.0.0.1:0").expect(&rt, "a listener");
    let port = listener.local_addr().expect(&rt, "an address").port();
    let mut dial = TcpDial::new(rt);
    dials(&rt, &mut dial, port, &listener);
    drop(listener);
    holds(&rt, dial.dial(port).is_err(), "nobody listens any more");
}
