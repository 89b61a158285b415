ghost use Rattle.std.specs.Prelude.{◌≡◌, false};

use crate::checks::holds;
use amf_http::{HttpBuffer, HttpEnd, next_request, write_response};
use amf_io::{Clock, Dice, Front, Hall, OpenEnd, TcpFront, TcpHall, TcpLink};
use std::alloc::Global;
use std::io::{Read, Write};
use std::net::{TcpListener, TcpStream};
use std::process::Abort;

const REQUEST: &[u8] =
    b"POST /amf HTTP/1.1\r\nHost: h\r\nContent-Type: application/x-amf\r\nContent-Length: 2\r\nConnection: close\r\n\r\nhi";

const ANSWER: &[u8] =
    b"HTTP/1.1 200 OK\r\nContent-Type: application/x-amf\r\nContent-Length: 2\r\nConnection: close\r\n\r\nhi";

/// Whether the request of a link is read and answered with its body.
fn is_answered(alloc: Global, link: &mut TcpLink) -> Result<bool, HttpEnd> {
    let mut buffer = HttpBuffer::new(alloc)?;
    match next_request(alloc, link, &mut buffer)? {
        Some(request) if request.close => {
            let body = request.body.as_slice();
            Ok(write_response(alloc, link, 200, body, request.close) == Ok(()))
        }
        _ => Ok(false),
    }
}

/// Serves one request of the next link of a hall.
fn serves<H: Hall<Link = TcpLink>>(rt: &impl Abort, alloc: Global, hall: &mut H)
    requires { H.is_out hall.old ≡ false }
{
    match hall.next() {
        Ok(Some(link)) => {
            let mut link = link;
            let answered = is_answered(alloc, &mut link) == Ok(true);
            holds(rt, answered, "the last request is answered");
            hall.back(link);
        }
        _ => panic!(rt; "no link"),
    }
}

/// Whether all that comes is the answer.
fn has_answer(alloc: Global, client: &mut TcpStream) -> bool {
    let mut answer = Vec::new(alloc);
    client.read_to_end(&mut answer).is_ok() && answer.as_slice() == ANSWER
}

/// A hall serves a client, and tells the moment and words.
fn meets<H: Hall<Link = TcpLink>>(
    rt: &impl Abort,
    alloc: Global,
    hall: &mut H,
    client: &mut TcpStream,
)
    requires { H.is_out hall.old ≡ false }
{
    let sent = client.write(REQUEST).expect(rt, "a write");
    holds(rt, sent == REQUEST.len(), "the request is sent");
    serves(rt, alloc, hall);
    holds(rt, has_answer(alloc, client), "the answer");
    holds(rt, hall.now() > 1_600_000_000_000, "the moment");
    holds(rt, hall.word() != hall.word(), "two words");
}

/// A connection is accepted by the system before the hall asks for it, so one thread plays both
/// sides.
#[test]
fn serves_over_loopback(rt: HostRuntime) {
    let listener = TcpListener::bind(&rt, "127.0.0.1:0").expect(&rt, "a listener");
    let address = listener.local_addr().expect(&rt, "an address");
    let mut client = TcpStream::connect(&rt, address).expect(&rt, "a client");
    let mut hall = TcpHall::new(listener, rt);
    meets(&rt, rt.alloc(), &mut hall, &mut client);
}

/// How many halls a front opens, which go back then.
fn opened<F: Front>(alloc: Global, front: &mut F, port: u16) -> Result<usize, OpenEnd>
where
    F::Hall: Drop,
{
    let halls = front.open(alloc, port, 2)?;
    let count = halls.len();
    for hall in halls {
        front.back(hall);
    }
    Ok(count)
}

#[test]
fn opens_a_hall_for_each_worker(rt: HostRuntime) {
    let listener = TcpListener::bind(&rt, "127.0.0.1:0").expect(&rt, "a listener");
    let port = listener.local_addr().expect(&rt, "an address").port();
    let mut front = TcpFront::new(rt);
    let early = opened(rt.alloc(), &mut front, port);
    holds(&rt, early.is_err(), "the address is taken");
    drop(listener);
    let halls = opened(rt.alloc(), &mut front, port);
    holds(&rt, halls == Ok(2), "two halls");
}
