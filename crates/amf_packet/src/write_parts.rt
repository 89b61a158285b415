ghost use Rattle.std.specs.Prelude.{◌≡◌, ◌+◌, ◌<◌, ◌≤◌, ◌^◌, ◌∷◌, [], length, map, true, OnOk};
ghost use Rattle.std.specs.List.{AllByRecursion};
ghost use Rattle.amf_wire.specs.Style.{canonical};
ghost use Rattle.amf0_spelling.specs.Segments0.{Short};
ghost use Rattle.amf_packet.specs.Content.{header_of, message_of, packet_of, body_of};
ghost use Rattle.amf_packet.specs.Packet.{SpellsPacket, HeaderBy, MessageBy, SizedBy, VersionBy, CountBy, MustBy, LengthBy, is_version};
ghost use Rattle.amf_packet.specs.PacketLacks.{bodies, texts_by_value};
ghost use Rattle.amf_packet.specs.WriteParts.{Grows, Appends, FitTexts, header_texts, message_texts, LacksFirst, LacksHere, Writes, WritesHeaders, WritesMessages};

use crate::write_body::append_body;
use crate::{Body, Header, Message, Packet, PacketEnd};
use amf_wire::{Memory, Name};
use std::alloc::Global;
use std::hash::RandomState;

/// The length of a value, which is not known (AMF 0, 4.2 and 4.3).
const UNKNOWN: u32 = 0xFFFF_FFFF;

/// Appends a number of 16 bits.
pub fn append_number(number: u16, out: &mut Vec<u8>) -> Result<(), Memory>
    ensures count { OnOk result (Appends (CountBy number) out.old.items out.new.items) }
    ensures version { is_version number ≡ true → OnOk result (Appends (VersionBy number) out.old.items out.new.items) }
    ensures grows { Grows out.old.items out.new.items }
{
    out.extend_from_slice(&number.to_be_bytes())?;
    Ok(())
}

/// Appends a text behind its length of 16 bits (AMF 0, 1.3.1).
pub fn append_name(name: &Name, out: &mut Vec<u8>) -> Result<(), Memory>
    requires { FitTexts (name.now ∷ []) }
    ensures written { OnOk result (Appends (Short name.now) out.old.items out.new.items) }
    ensures grows { Grows out.old.items out.new.items }
{
    let bytes = name.as_bytes();
    out.extend_from_slice(&(bytes.len() as u16).to_be_bytes())?;
    out.extend_from_slice(bytes)?;
    Ok(())
}

/// Appends whether a header must be understood.
fn append_must(must: bool, out: &mut Vec<u8>) -> Result<(), Memory>
    ensures written { OnOk result (Appends (MustBy canonical must) out.old.items out.new.items) }
    ensures grows { Grows out.old.items out.new.items }
{
    out.push(must as u8)?;
    Ok(())
}

/// Appends a length that is not known.
pub fn append_length(out: &mut Vec<u8>) -> Result<(), Memory>
    ensures written { OnOk result (Appends (LengthBy canonical) out.old.items out.new.items) }
    ensures grows { Grows out.old.items out.new.items }
{
    out.extend_from_slice(&UNKNOWN.to_be_bytes())?;
    Ok(())
}

/// Appends the length of a value, and then the value, which has this number.
fn append_sized(
    alloc: Global,
    keys: Option<RandomState>,
    body: &Body,
    value: u32,
    out: &mut Vec<u8>,
) -> Result<(), PacketEnd>
    ensures writes { Writes (SizedBy canonical (body_of body.now)) (LacksHere (body_of body.now) value) out.old.items out.new.items result }
    ensures grows { Grows out.old.items out.new.items }
{
    append_length(out)?;
    append_body(alloc, keys, body, value, out)
}

/// Appends a header (AMF 0, 4.2), whose value has this number.
fn append_header(
    alloc: Global,
    keys: Option<RandomState>,
    header: &Header,
    value: u32,
    out: &mut Vec<u8>,
) -> Result<(), PacketEnd>
    requires { FitTexts (header.now.name ∷ []) }
    ensures writes { Writes (HeaderBy canonical (header_of header.now)) (LacksHere (body_of header.now.body) value) out.old.items out.new.items result }
    ensures grows { Grows out.old.items out.new.items }
{
    append_name(&header.name, out)?;
    append_must(header.must, out)?;
    append_sized(alloc, keys, &header.body, value, out)
}

/// Appends a message (AMF 0, 4.3), whose value has this number.
fn append_message(
    alloc: Global,
    keys: Option<RandomState>,
    message: &Message,
    value: u32,
    out: &mut Vec<u8>,
) -> Result<(), PacketEnd>
    requires { FitTexts (message.now.target ∷ message.now.response ∷ []) }
    ensures writes { Writes (MessageBy canonical (message_of message.now)) (LacksHere (body_of message.now.body) value) out.old.items out.new.items result }
    ensures grows { Grows out.old.items out.new.items }
{
    append_name(&message.target, out)?;
    append_name(&message.response, out)?;
    append_sized(alloc, keys, &message.body, value, out)
}

/// Appends how many headers there are, and then each.
fn append_headers(
    alloc: Global,
    keys: Option<RandomState>,
    headers: &[Header],
    out: &mut Vec<u8>,
) -> Result<(), PacketEnd>
    requires few { length headers.now < 2 ^ 16 }
    requires texts { AllByRecursion FitTexts (header_texts (map header_of headers.now)) }
    ensures writes { WritesHeaders (map header_of headers.now) out.old.items out.new.items result }
    ensures grows { Grows out.old.items out.new.items }
{
    append_number(headers.len() as u16, out)?;
    for (place, header) in headers.iter().enumerate() {
        append_header(alloc, keys, header, place as u32, out)?;
    }
    Ok(())
}

/// Appends how many messages there are, and then each. The value of the first has this number.
fn append_messages(
    alloc: Global,
    keys: Option<RandomState>,
    messages: &[Message],
    first: u32,
    out: &mut Vec<u8>,
) -> Result<(), PacketEnd>
    requires few { length messages.now < 2 ^ 16 }
    requires first { first < 2 ^ 16 }
    requires texts { AllByRecursion FitTexts (message_texts (map message_of messages.now)) }
    ensures writes { WritesMessages first (map message_of messages.now) out.old.items out.new.items result }
    ensures grows { Grows out.old.items out.new.items }
{
    append_number(messages.len() as u16, out)?;
    for (place, message) in messages.iter().enumerate() {
        append_message(alloc, keys, message, first + place as u32, out)?;
    }
    Ok(())
}

/// Appends a packet whose counts and texts fit their fields. It stops at the first value that has no spelling.
pub fn append_packet(
    alloc: Global,
    keys: Option<RandomState>,
    packet: &Packet,
    out: &mut Vec<u8>,
) -> Result<(), PacketEnd>
    requires version { is_version packet.now.version ≡ true }
    requires headers { length packet.now.headers < 2 ^ 16 }
    requires messages { length packet.now.messages < 2 ^ 16 }
    requires texts { AllByRecursion FitTexts (texts_by_value (packet_of packet.now)) }
    ensures writes { Writes (SpellsPacket canonical (packet_of packet.now)) (LacksFirst 0 (bodies (packet_of packet.now))) out.old.items out.new.items result }
    ensures grows { Grows out.old.items out.new.items }
{
    let headers = packet.headers.as_slice();
    let first = headers.len() as u32;
    append_number(packet.version, out)?;
    append_headers(alloc, keys, headers, out)?;
    append_messages(alloc, keys, packet.messages.as_slice(), first, out)
}
