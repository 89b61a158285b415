//! The reply of a backend.

ghost use Rattle.std.specs.Prelude.{◌≡◌};
ghost use Rattle.amf_io.specs.Outside.{Keeps};
ghost use Rattle.http_backend.specs.Ended.{ended_as};
ghost use Rattle.http_backend.specs.Outcomes.{Reads, Counts};

use crate::judge::{Judged, judge};
use amf_io::Link;
use amf_wire::Memory;
use http_link::{LinkBuffer, PartEnd, read_body, read_head, read_rest};
use std::alloc::Global;

/// The most bytes of a body.
const BODY_LIMIT: usize = 16000000;

/// What a backend replied.
#[derive(Debug, Drop)]
pub enum Reply {
    /// A bad reply, for the reason of this number: 1, 2, 3 or 7.
    Bad(u8),
    /// A status, whether the length of the body was told, and the body.
    Replied(u16, bool, Vec<u8>),
}

/// Why there is no reply.
#[derive(Clone, Copy, Debug, PartialEq, Eq)]
pub enum ReadEnd {
    /// A read of the link failed.
    ReadFault,
    /// There was no memory left.
    Memory,
}

impl From<Memory> for ReadEnd {
    ghost use Rattle.std.specs.Prelude.{◌≡◌};
    ghost use Rattle.http_backend.specs.declared.reply.ReadEnd.TheVariants as end;

    ghost from_gives = { λ _ e. e ≡ end.Memory };

    fn from(_error: Memory) -> ReadEnd {
        ReadEnd::Memory
    }
}

/// What the end of a part comes to.
fn ended(end: PartEnd) -> Result<Reply, ReadEnd>
    ensures { result ≡ ended_as end }
{
    match end {
        PartEnd::TooLong => Ok(Reply::Bad(1)),
        PartEnd::Ended => Ok(Reply::Bad(7)),
        PartEnd::ReadFault => Err(ReadEnd::ReadFault),
        PartEnd::Memory => Err(ReadEnd::Memory),
    }
}

/// Reads a reply to its end: to the length that it tells, or to the end of the link.
pub fn read_reply<L: Link>(alloc: Global, link: &mut L) -> Result<Reply, ReadEnd>
    ensures tells { L.tells_left link.old → L.tells_left link.new }
    ensures reads { L.tells_left link.old → Reads (L.left link.old) (L.left link.new) result }
    ensures cause { Counts (L.read_faults link.old) (L.read_faults link.new) result }
    ensures other_side { Keeps (L.tells_held link.old) (L.tells_held link.new) (L.held link.old) (L.held link.new) }
    ensures other_count { L.write_faults link.new ≡ L.write_faults link.old }
{
    let mut buffer = LinkBuffer::new(alloc)?;
    let mut head = Vec::new(alloc);
    match read_head(link, &mut buffer, &mut head) {
        Ok(true) => {}
        Ok(false) => return Ok(Reply::Bad(7)),
        Err(end) => return ended(end),
    }
    let mut body = Vec::new(alloc);
    match judge(alloc, head.as_slice())? {
        Judged::Refused(number) => Ok(Reply::Bad(number)),
        Judged::Sized(size, code) => match read_body(link, &mut buffer, size as usize, &mut body) {
            Ok(()) => Ok(Reply::Replied(code, true, body)),
            Err(end) => ended(end),
        },
        Judged::ToEnd(code) => match read_rest(link, &mut buffer, BODY_LIMIT, &mut body) {
            Ok(false) => Ok(Reply::Replied(code, false, body)),
            Ok(true) => Ok(Reply::Bad(3)),
            Err(end) => ended(end),
        },
    }
}
