//! Asking a backend: one dial, one POST, one reply.

ghost use Rattle.std.specs.Prelude.{◌≡◌, false, IfOk, OnErr};
ghost use Rattle.http_backend.specs.Exchanges.{Asks, OverLink, Starved, Starves, heard_of};

use crate::reply::{ReadEnd, Reply, read_reply};
use amf_io::{Dial, Link, OpenEnd};
use amf_wire::Memory;
use http_link::send;
use std::alloc::Global;

/// What was heard of a question.
#[derive(Debug, Drop)]
pub enum Heard {
    /// There was no connection: nothing was sent.
    Unreached,
    /// The connection failed before a reply was whole; the question may have been heard.
    Broken,
    /// A reply came, a good one or a bad one.
    Came(Reply),
}

/// Sends a question over a link, and reads the reply.
fn over_link<L: Link>(alloc: Global, link: &mut L, question: &[u8]) -> Result<Heard, Memory>
    ensures exchanged { IfOk result (λ heard. OverLink L.Link link.old link.new question.now (heard_of heard)) }
    ensures starved { OnErr result (Starved L.Link link.old link.new question.now) }
{
    let Ok(()) = send(link, question) else {
        return Ok(Heard::Broken);
    };
    match read_reply(alloc, link) {
        Ok(reply) => Ok(Heard::Came(reply)),
        Err(ReadEnd::ReadFault) => Ok(Heard::Broken),
        Err(ReadEnd::Memory) => Err(Memory),
    }
}

/// Asks the backend at this port of 127.0.0.1 once: dials it, sends the question, reads the reply, and gives the link back. It gives up
/// where there is no memory, and then too it has dialled and asked at most once. No link of the dial is out.
pub fn ask<D: Dial>(
    alloc: Global,
    dial: &mut D,
    port: u16,
    question: &[u8],
) -> Result<Heard, Memory>
    requires none_out { D.is_out dial.old ≡ false }
    ensures none_out { D.is_out dial.new ≡ false }
    ensures asks { IfOk result (λ heard. Asks D.Dial D.Link.Link port dial.old dial.new (record { asked = question.now; heard = heard_of heard })) }
    ensures starved { OnErr result (Starves D.Dial D.Link.Link port dial.old dial.new question.now) }
{
    let mut link = match dial.dial(port) {
        Ok(link) => link,
        Err(OpenEnd::Failed) => return Ok(Heard::Unreached),
        Err(OpenEnd::Memory) => return Err(Memory),
    };
    let heard = over_link(alloc, &mut link, question);
    dial.back(link);
    heard
}
