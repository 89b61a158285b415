ghost use Rattle.std.specs.Prelude.{◌+◌, ◌≤◌, ◌<◌, ◌^◌, IfOk, OnOk};
ghost use Rattle.amf_io.specs.Cursor.{place};
ghost use Rattle.amf_io.specs.ReadEnds.{IsPlaced, Goes};
ghost use Rattle.amf_wire.specs.Style.{free};
ghost use Rattle.amf_wire_fields.specs.Room.{left_of};
ghost use Rattle.amf_packet.specs.Content.{header_of, message_of};
ghost use Rattle.amf_packet.specs.LayoutPacket.{header_layout, message_layout, list_layout};
ghost use Rattle.amf_packet.specs.Packet.{HeaderBy, MessageBy, ListBy};
ghost use Rattle.amf_packet.specs.PacketAnswer.{AnswersPacket, body_weight, headers_weight, messages_weight, packet_weight};
ghost use Rattle.amf_packet.specs.ReadParts.{ReadsFueled};

use crate::read_body::read_body;
use crate::read_field::{read_count, read_must, read_name, read_version};
use crate::{Header, Headers, Message, Messages, Packet};
use amf_io::{Cursor, ReadEnd, Source};
use std::alloc::Global;
use std::hash::RandomState;

/// Reads a packet (AMF 0, 4.1), and leaves what follows it. Each value is read with fresh tables, into a graph of its own.
/// Length fields are read and not checked. No more bytes than 2^27 - 1 may be left up to the cursor's limit.
///
/// `Refused` tells the first field that no packet has there, or where the input or its limit ends. `ReadFault` comes only
/// where the count of the source's faults rose, `Memory` where there is no room for what is read. After an end the cursor must
/// not be used again.
///
/// Texts are looked up by fixed keys, so whoever knows them can make a packet that takes long: `read_packet_keyed` is passed others.
pub fn read_packet<S: Source>(alloc: Global, cursor: &mut Cursor<'_, S>) -> Result<Packet, ReadEnd>
    requires room { left_of cursor.old < 2 ^ 27 }
    ensures goes { Goes S.Source cursor.old cursor.new result }
    ensures answers { AnswersPacket S.tells S.left cursor.old cursor.new result }
    ensures weighs { IfOk result (λ packet. place cursor.old + packet_weight packet ≤ place cursor.new) }
{
    read_packet_keyed(alloc, None, cursor)
}

/// Does what `read_packet` does, with texts that are looked up by these keys, or by fixed ones where there are none. What is read
/// is the same for all keys.
pub fn read_packet_keyed<S: Source>(
    alloc: Global,
    keys: Option<RandomState>,
    cursor: &mut Cursor<'_, S>,
) -> Result<Packet, ReadEnd>
    requires room { left_of cursor.old < 2 ^ 27 }
    ensures goes { Goes S.Source cursor.old cursor.new result }
    ensures answers { AnswersPacket S.tells S.left cursor.old cursor.new result }
    ensures weighs { IfOk result (λ packet. place cursor.old + packet_weight packet ≤ place cursor.new) }
{
    // What is true of every cursor.
    let _start = cursor.at();
    let version = read_version(cursor)?;
    let headers = read_headers(alloc, keys, cursor)?;
    let messages = read_messages(alloc, keys, cursor)?;
    Ok(Packet {
        version,
        headers,
        messages,
    })
}

/// Reads how many headers there are, and then each.
fn read_headers<S: Source>(
    alloc: Global,
    keys: Option<RandomState>,
    cursor: &mut Cursor<'_, S>,
) -> Result<Headers, ReadEnd>
    requires room { left_of cursor.old < 2 ^ 27 }
    ensures goes { Goes S.Source cursor.old cursor.new result }
    ensures reads { ReadsFueled S.tells S.left (λ hs. ListBy (λ h. HeaderBy free (header_of h)) hs) (λ n. list_layout (header_layout n)) cursor.old cursor.new result }
    ensures placed { OnOk result (IsPlaced cursor.new) }
    ensures weighs { IfOk result (λ hs. place cursor.old + headers_weight hs ≤ place cursor.new) }
{
    let count = read_count(cursor)?;
    let mut headers = Vec::new(alloc);
    for _ in 0..count {
        headers.push(read_header(alloc, keys, cursor)?)?;
    }
    Ok(Headers::of_vec(headers))
}

/// Reads a header (AMF 0, 4.2).
fn read_header<S: Source>(
    alloc: Global,
    keys: Option<RandomState>,
    cursor: &mut Cursor<'_, S>,
) -> Result<Header, ReadEnd>
    requires room { left_of cursor.old < 2 ^ 27 }
    ensures goes { Goes S.Source cursor.old cursor.new result }
    ensures reads { ReadsFueled S.tells S.left (λ h. HeaderBy free (header_of h)) header_layout cursor.old cursor.new result }
    ensures placed { OnOk result (IsPlaced cursor.new) }
    ensures weighs { IfOk result (λ h. place cursor.old + body_weight h.body ≤ place cursor.new) }
{
    let name = read_name(alloc, cursor)?;
    let must = read_must(cursor)?;
    let body = read_body(alloc, keys, cursor)?;
    Ok(Header { name, must, body })
}

/// Reads how many messages there are, and then each.
fn read_messages<S: Source>(
    alloc: Global,
    keys: Option<RandomState>,
    cursor: &mut Cursor<'_, S>,
) -> Result<Messages, ReadEnd>
    requires room { left_of cursor.old < 2 ^ 27 }
    ensures goes { Goes S.Source cursor.old cursor.new result }
    ensures reads { ReadsFueled S.tells S.left (λ ms. ListBy (λ m. MessageBy free (message_of m)) ms) (λ n. list_layout (message_layout n)) cursor.old cursor.new result }
    ensures placed { OnOk result (IsPlaced cursor.new) }
    ensures weighs { IfOk result (λ ms. place cursor.old + messages_weight ms ≤ place cursor.new) }
{
    let count = read_count(cursor)?;
    let mut messages = Vec::new(alloc);
    for _ in 0..count {
        messages.push(read_message(alloc, keys, cursor)?)?;
    }
    Ok(Messages::of_vec(messages))
}

/// Reads a message (AMF 0, 4.3).
fn read_message<S: Source>(
    alloc: Global,
    keys: Option<RandomState>,
    cursor: &mut Cursor<'_, S>,
) -> Result<Message, ReadEnd>
    requires room { left_of cursor.old < 2 ^ 27 }
    ensures goes { Goes S.Source cursor.old cursor.new result }
    ensures reads { ReadsFueled S.tells S.left (λ m. MessageBy free (message_of m)) message_layout cursor.old cursor.new result }
    ensures placed { OnOk result (IsPlaced cursor.new) }
    ensures weighs { IfOk result (λ m. place cursor.old + body_weight m.body ≤ place cursor.new) }
{
    let target = read_name(alloc, cursor)?;
    let response = read_name(alloc, cursor)?;
    let body = read_body(alloc, keys, cursor)?;
    Ok(Message {
        target,
        response,
        body,
    })
}
