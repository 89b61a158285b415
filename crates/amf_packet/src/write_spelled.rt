//! Packets of messages whose values are spelled already.

ghost use Rattle.std.specs.Prelude.{◌≡◌, ◌<◌, ◌^◌, ◌∷◌, List, [], length, true, IfOk, OnOk};
ghost use Rattle.std.specs.List.{AllByRecursion, AllZip};
ghost use Rattle.amf_wire.specs.Style.{canonical};
ghost use Rattle.amf_packet.specs.Packet.{Body as BodyContent, Message as MessageContent, Packet as PacketContent, MessageBy, ListBy, SizedBy, SpelledPacket, is_version};
ghost use Rattle.amf_packet.specs.SpelledBodies.{IsBodySpelling, IsSpelledMessage, IsSpelledAs, HasFitUris};
ghost use Rattle.amf_packet.specs.WriteParts.{Appends};

use crate::SpelledBody;
use crate::write_parts::{append_length, append_name, append_number};
use amf_wire::{Memory, Name};
use std::alloc::Global;

/// A message of a packet whose value is spelled (AMF 0, 4.3).
pub struct SpelledMessage {
    /// The URI of what is called, or of what is answered.
    pub target: Name,
    /// The URI to answer to.
    pub response: Name,
    pub body: SpelledBody,
}

impl Drop for SpelledMessage {
    /// Lets its parts go. Written out, it is proved once; what is derived is proved at each place where one is let go.
    fn drop(self) {
        let SpelledMessage {
            target: _,
            response: _,
            body: _,
        } = self;
    }
}

/// Appends the bytes of a value behind a length that is not known.
fn append_spelled(body: &SpelledBody, out: &mut Vec<u8>) -> Result<(), Memory>
    ensures { OnOk result ((b : BodyContent) → IsBodySpelling b body.now → Appends (SizedBy canonical b) out.old.items out.new.items) }
{
    append_length(out)?;
    out.extend_from_slice(body.as_bytes())?;
    Ok(())
}

/// Appends a message (AMF 0, 4.3).
fn append_message(message: &SpelledMessage, out: &mut Vec<u8>) -> Result<(), Memory>
    requires { HasFitUris message.now }
    ensures { OnOk result ((m : MessageContent) → IsSpelledMessage m message.now → Appends (MessageBy canonical m) out.old.items out.new.items) }
{
    append_name(&message.target, out)?;
    append_name(&message.response, out)?;
    append_spelled(&message.body, out)
}

/// Appends how many messages there are, and then each.
fn append_messages(messages: &[SpelledMessage], out: &mut Vec<u8>) -> Result<(), Memory>
    requires few { length messages.now < 2 ^ 16 }
    requires uris { AllByRecursion HasFitUris messages.now }
    ensures { OnOk result ((ms : List MessageContent) → AllZip IsSpelledMessage ms messages.now → Appends (ListBy (MessageBy canonical) ms) out.old.items out.new.items) }
{
    append_number(messages.len() as u16, out)?;
    for message in messages {
        append_message(message, out)?;
    }
    Ok(())
}

/// The canonical spelling of a packet without headers (AMF 0, 4.1 to 4.3), by those of the values of its messages, which are
/// spelled no second time. The version is 0, 1 or 3, there are at most 65,535 messages, and each URI is a text of at most 65,535
/// bytes. The lengths say that they are not known. It gives up where there is no memory.
pub fn spelled_packet(
    alloc: Global,
    version: u16,
    messages: &[SpelledMessage],
) -> Result<Vec<u8>, Memory>
    requires version { is_version version ≡ true }
    requires few { length messages.now < 2 ^ 16 }
    requires uris { AllByRecursion HasFitUris messages.now }
    ensures { IfOk result (λ bytes. (p : PacketContent) → IsSpelledAs p version messages.now → SpelledPacket canonical p bytes.items) }
{
    let mut bytes = Vec::new(alloc);
    append_number(version, &mut bytes)?;
    append_number(0, &mut bytes)?;
    append_messages(messages, &mut bytes)?;
    Ok(bytes)
}
