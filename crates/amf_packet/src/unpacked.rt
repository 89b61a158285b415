//! The packet that bytes are.

ghost use Rattle.std.specs.Prelude.{◌≡◌, ◌↔◌, ◌<◌, ◌^◌, true, [], length, IfOk};
ghost use Rattle.std.specs.List.{AllByRecursion};
ghost use Rattle.amf_io.specs.Cursor.{place, bound, unread};
ghost use Rattle.amf_io.specs.InMemory.{nothing_left};
ghost use Rattle.amf_graph.specs.Reached.{IsWhole};
ghost use Rattle.amf_packet.specs.Content.{body_of};
ghost use Rattle.amf_packet.specs.Unpacked.{Unpacks};

use crate::{Body, Message, Packet, read_packet_keyed};
use amf_io::{Cursor, Empty, ReadEnd};
use amf_wire::Memory;
use std::alloc::Global;
use std::hash::RandomState;

/// The most bytes of which a packet is read.
const MOST_BYTES: u32 = 134_217_727;

/// What is true of every body. It does nothing.
fn is_whole(body: &Body)
    ensures { IsWhole (body_of body.now).graph }
{
    let graph = body.graph();
    graph.is_finished();
}

/// What is true of all messages. It changes nothing.
fn are_whole(messages: &[Message])
    ensures { AllByRecursion (λ m. IsWhole (body_of m.body).graph) messages.now }
{
    for message in messages {
        is_whole(&message.body);
    }
}

/// The packet that is the whole of what a cursor is to give, if that is one. It gives up where there is no memory.
fn whole_packet(
    alloc: Global,
    keys: Option<RandomState>,
    cursor: &mut Cursor<'_, Empty>,
) -> Result<Option<Packet>, Memory>
    requires start { place cursor.old ≡ 0 }
    requires limit { bound cursor.old ≡ 134217727 }
    requires short { length (unread nothing_left cursor.old) < 2 ^ 27 }
    ensures { IfOk result (λ packet. Unpacks (unread nothing_left cursor.old) packet) }
{
    match read_packet_keyed(alloc, keys, cursor) {
        Ok(packet) => {
            are_whole(packet.messages.as_slice());
            Ok(cursor.is_at_end().then_some(packet))
        }
        Err(ReadEnd::Refused(_)) => Ok(None),
        // No read of bytes in memory fails.
        Err(ReadEnd::ReadFault) => unreachable!(),
        Err(ReadEnd::Memory) => Err(Memory),
    }
}

/// The packet that is the whole of these bytes, or none where they are not one packet (AMF 0, 4.1). There may be at most
/// 2^27 - 1 bytes. It gives up where there is no memory.
///
/// Texts are looked up by these keys, or by fixed ones where there are none; what is read is the same for all keys.
pub fn packet_in(
    alloc: Global,
    keys: Option<RandomState>,
    bytes: &[u8],
) -> Result<Option<Packet>, Memory>
    requires { length bytes.now < 2 ^ 27 }
    ensures { IfOk result (λ packet. Unpacks bytes.now packet) }
{
    let mut end = Empty;
    let mut cursor = Cursor::over_bytes(alloc, &mut end, bytes, MOST_BYTES)?;
    whole_packet(alloc, keys, &mut cursor)
}
