ghost use Rattle.std.specs.Prelude.{◌≡◌, false, length, IfOk};

use amf_desk::Closed;
use amf_io::{Joined, MemoryFront, MemoryHall, MemoryLink, MemorySink, MemorySource, OpenGate};
use amf_service::Registry;
use amf_wire::Memory;
use amf_workers::{ServeAnswer, serve};
use std::alloc::Global;
use std::test::Fail;

/// A packet of one message for a Flex client.
const PACKET: &[u8] =
    b"\x00\x03\x00\x00\x00\x01\x00\x04null\x00\x02/1\xFF\xFF\xFF\xFF\x0A\x00\x00\x00\x01\x11";

const COMMAND: &[u8] = b"\x0A\x81\x13\x4Dflex.messaging.messages.CommandMessage";

const ASYNC: &[u8] = b"\x0A\x81\x03\x49flex.messaging.messages.AsyncMessage";

/// The names of the members that all messages have.
const NAMES: &[u8] =
    b"\x09body\x11clientId\x17destination\x0Fheaders\x13messageId\x15timeToLive\x13timestamp\x1BcorrelationId";

const OPERATION: &[u8] = b"\x13operation";

/// The headers of a message from the client with the number 1.
const HEADERS: &[u8] = b"\x0A\x0B\x01\x09DSId\x06\x031\x01";

/// Its identifier, its times and its correlation.
const REST: &[u8] = b"\x06\x05m1\x04\x00\x04\x00\x06\x01";

const PING: &[&[u8]] = &[
    COMMAND,
    NAMES,
    OPERATION,
    b"\x01\x01\x06\x01\x0A\x0B\x01\x09DSId\x06\x07nil\x01",
    REST,
    b"\x04\x05",
];

const SUBSCRIBE: &[&[u8]] = &[
    COMMAND,
    NAMES,
    OPERATION,
    b"\x01\x01\x06\x09chat",
    HEADERS,
    REST,
    b"\x04\x00",
];

const PUBLISH: &[&[u8]] = &[ASYNC, NAMES, b"\x06\x05hi\x01\x06\x09chat", HEADERS, REST];

const POLL: &[&[u8]] = &[
    COMMAND,
    NAMES,
    OPERATION,
    b"\x01\x01\x06\x01",
    HEADERS,
    REST,
    b"\x04\x02",
];

/// The requests of a link.
fn requests(alloc: Global, messages: &[&[&[u8]]]) -> Result<Vec<u8>, Fail> {
    let mut bytes = Vec::new(alloc);
    for message in messages {
        let mut body = Vec::new(alloc);
        body.extend_from_slice(PACKET)?;
        for part in *message {
            body.extend_from_slice(part)?;
        }
        let size = body.len();
        let head = format!(in alloc;
            "POST /amf HTTP/1.1\r\nHost: h\r\nContent-Type: application/x-amf\r\nContent-Length: {size}\r\n\r\n"
        )?;
        bytes.extend_from_slice(head.as_bytes())?;
        bytes.extend_from_slice(body.as_slice())?;
    }
    Ok(bytes)
}

/// A hall of one link.
fn hall(alloc: Global, bytes: &[u8]) -> Result<MemoryHall<MemoryLink>, Memory>
    ensures whole { IfOk result (λ h. h.failed ≡ 0) }
    ensures fresh { IfOk result (λ h. length h.links.served.items ≡ 0) }
    ensures none_out { IfOk result (λ h. h.links.out ≡ false) }
{
    let mut links = Vec::new(alloc);
    links.push(Joined {
        source: MemorySource::new(alloc, bytes, 100, 0, &[])?,
        sink: MemorySink::new(alloc, 100, &[])?,
    })?;
    MemoryHall::new(alloc, links, &[], &[], &[])
}

/// A front of two halls.
fn front(alloc: Global, one: &[u8], two: &[u8]) -> Result<MemoryFront<MemoryLink>, Memory> {
    let mut halls = Vec::new(alloc);
    halls.push(hall(alloc, one)?)?;
    halls.push(hall(alloc, two)?)?;
    MemoryFront::new(alloc, halls, &[])
}

/// The client with the number 1 is one of the two, so it is there once the second link has its own.
#[test]
fn two_workers_at_one_desk(rt: HostRuntime) -> Result<(), Fail> {
    let alloc = rt.alloc();
    let one = requests(alloc, &[PING])?;
    let two = requests(alloc, &[PING, SUBSCRIBE, PUBLISH, POLL, PUBLISH])?;
    let mut front = front(alloc, one.as_slice(), two.as_slice())?;
    let registry = Registry::new(alloc, Vec::new(alloc))
        .ok()
        .ok_or("no registry")?;
    let answer = serve(&rt, alloc, &mut front, &OpenGate, &registry, 0, 2, 1);
    assert_eq!(rt;
        answer,
        ServeAnswer::Closed {
            counts: Closed {
                calls: 6,
                published: 2,
                delivered: 1,
                queued: 1,
            },
            starved: false,
            faulty: false,
        }
    );
    assert_eq!(rt; front.asked(), [(0, 2)].as_slice());
    assert_eq!(rt; front.returned().len(), 2);
    Ok(())
}
