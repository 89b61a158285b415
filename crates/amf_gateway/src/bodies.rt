//! How the body of a request is answered: by the bytes of a packet, where it is one.

ghost use Rattle.std.specs.Prelude.{◌≤◌, length, Some, OnErr};
ghost use Rattle.amf_packet.specs.Content.{packet_of};
ghost use Rattle.amf_gateway.specs.Answered.{IsReadable, if_packet, body_bytes, most_body, RanBytes};
ghost use Rattle.amf_answer_plan.specs.Services.{services_of};
ghost use Rattle.amf_answer_plan.specs.Did.{Stopped};

use crate::packets::{answer_packet, has_long_uri};
use amf_answer_plan::outside::{Outside, Unanswered};
use amf_packet::{Packet, packet_in};
use amf_service::Registry;
use std::alloc::Global;

/// Answers a packet that was read, unless a response URI leaves no room for a suffix.
fn answer_read<O: Outside>(
    alloc: Global,
    outside: &mut O,
    registry: &Registry,
    packet: &Packet,
) -> Result<Option<Vec<u8>>, Unanswered>
    requires packet { IsReadable packet.now }
    requires ready { O.may_call outside.old }
    ensures ran { RanBytes O.handed (if_packet (services_of registry.now knows gives) (Some (packet_of packet.now))) outside.old outside.new result }
    ensures stopped { OnErr result (Stopped O.handed (if_packet (services_of registry.now knows gives) (Some (packet_of packet.now))) outside.old outside.new) }
{
    let is_long = has_long_uri(packet);
    if is_long {
        return Ok(None);
    }
    let bytes = answer_packet(alloc, outside, registry, packet)?;
    Ok(Some(bytes))
}

/// Answers the body of a request by the bytes of a packet, where it is a packet in which each response URI leaves room for a
/// suffix. For another body there is no answer, and nothing was asked.
pub(crate) fn answer_body<O: Outside>(
    alloc: Global,
    outside: &mut O,
    registry: &Registry,
    body: &[u8],
) -> Result<Option<Vec<u8>>, Unanswered>
    requires short { length body.now ≤ most_body }
    requires ready { O.may_call outside.old }
    ensures ran { RanBytes O.handed (body_bytes (services_of registry.now knows gives) body.now) outside.old outside.new result }
    ensures stopped { OnErr result (Stopped O.handed (body_bytes (services_of registry.now knows gives) body.now) outside.old outside.new) }
{
    let keys = outside.keys();
    let packet = packet_in(alloc, keys, body)?;
    match packet {
        Some(packet) => answer_read(alloc, outside, registry, &packet),
        None => Ok(None),
    }
}
