ghost use Rattle.std.specs.Prelude.{◌≡◌, ◌<◌, ◌≤◌, ◌^◌, ◌∷◌, [], length, map, true, false};
ghost use Rattle.amf_packet.specs.Content.{header_of, message_of, packet_of};
ghost use Rattle.amf_packet.specs.PacketLacks.{IsTooMany, AreShort, texts_by_value};
ghost use Rattle.amf_packet.specs.WriteParts.{header_texts, message_texts, IsFirstLong};

use crate::{Header, Message, Packet};
use amf_wire::Name;

/// The most that a count or a length of 16 bits says.
const MOST: usize = 65535;

/// Whether there are more headers or messages than their counts can say.
pub fn is_too_many(packet: &Packet) -> bool
    ensures many { result ≡ true → IsTooMany (packet_of packet.now) }
    ensures few { result ≡ false → IsTooMany (packet_of packet.now) → ⊥ }
{
    packet.headers.as_slice().len() > MOST || packet.messages.as_slice().len() > MOST
}

/// Whether a text does not fit its length field.
fn is_long(name: &Name) -> bool
    ensures long { result ≡ true → 2 ^ 16 ≤ length name.now }
    ensures short { result ≡ false → length name.now < 2 ^ 16 }
{
    name.as_bytes().len() > MOST
}

/// Whether the name of a header is too long.
fn has_long_name(header: &Header) -> bool
    ensures long { result ≡ true → AreShort (header.now.name ∷ []) → ⊥ }
    ensures short { result ≡ false → AreShort (header.now.name ∷ []) }
{
    is_long(&header.name)
}

/// Whether a URI of a message is too long.
fn has_long_uri(message: &Message) -> bool
    ensures long { result ≡ true → AreShort (message.now.target ∷ message.now.response ∷ []) → ⊥ }
    ensures short { result ≡ false → AreShort (message.now.target ∷ message.now.response ∷ []) }
{
    is_long(&message.target) || is_long(&message.response)
}

/// The first of the headers whose name is too long.
fn first_long_header(headers: &[Header]) -> Option<u32>
    requires { length headers.now < 2 ^ 16 }
    ensures { IsFirstLong (header_texts (map header_of headers.now)) result }
{
    for (place, header) in headers.iter().enumerate() {
        if has_long_name(header) {
            return Some(place as u32);
        }
    }
    None
}

/// The first of the messages of which a URI is too long.
fn first_long_message(messages: &[Message]) -> Option<u32>
    requires { length messages.now < 2 ^ 16 }
    ensures { IsFirstLong (message_texts (map message_of messages.now)) result }
{
    for (place, message) in messages.iter().enumerate() {
        if has_long_uri(message) {
            return Some(place as u32);
        }
    }
    None
}

/// The first value with which a text stands that is too long. Values are counted from 0, those of the headers first.
pub fn first_long(packet: &Packet) -> Option<u32>
    requires { IsTooMany (packet_of packet.now) → ⊥ }
    ensures { IsFirstLong (texts_by_value (packet_of packet.now)) result }
{
    let headers = packet.headers.as_slice();
    match first_long_header(headers) {
        Some(value) => Some(value),
        None => match first_long_message(packet.messages.as_slice()) {
            Some(place) => Some(headers.len() as u32 + place),
            None => None,
        },
    }
}
