ghost use Rattle.std.specs.Prelude.{◌≡◌, ◌↔◌, ℕ, ◌<◌, ◌^◌, length, true, OnOk, OnErr};
ghost use Rattle.std.specs.List.{AllByRecursion};
ghost use Rattle.std.specs.Result.{IsErrOf};
ghost use Rattle.amf_wire.specs.Style.{canonical};
ghost use Rattle.amf_graph.specs.declared.lack.Lack.{Lack};
ghost use Rattle.amf_packet.specs.Content.{packet_of};
ghost use Rattle.amf_packet.specs.Packet.{SpellsPacket, is_version};
ghost use Rattle.amf_packet.specs.PacketLacks.{bodies, texts_by_value, IsTooMany, IsLongText, IsOnlyLack};
ghost use Rattle.amf_packet.specs.WriteParts.{FitTexts, LacksFirst, Writes};
ghost use Rattle.amf_packet.specs.WrittenPacket.{HasTexts, AppendsPacket};

use crate::write_parts::append_packet;
use crate::write_texts::{first_long, is_too_many};
use crate::{Packet, PacketEnd};
use std::alloc::Global;
use std::hash::RandomState;

/// Appends the canonical spelling of a packet (AMF 0, 4.1 to 4.3). The version is 0, 1 or 3, and each name and URI is a text.
/// Each value is written with fresh tables: a `Call` as the one item, in AMF 3, of a strict array, an `Amf3` in AMF 3, and a
/// `Plain` lowered. The lengths say that they are not known.
///
/// After an end `out` is as before. `TooMany` comes exactly where there are more than 65,535 headers or messages, `LongText`
/// exactly where there are not, and a name or URI has more than 65,535 bytes: it tells the first value with which one stands.
/// `NoSpelling` comes only where neither is so, and tells the first value that has no spelling, and its first lack; `Memory`
/// where there is no room for the tables or the bytes.
///
/// The texts of AMF 3 are looked up by fixed keys, so whoever knows them can make a packet that takes long:
/// `write_packet_keyed` is passed others.
pub fn write_packet(alloc: Global, packet: &Packet, out: &mut Vec<u8>) -> Result<(), PacketEnd>
    requires version { is_version packet.now.version ≡ true }
    requires texts { HasTexts (packet_of packet.now) }
    ensures written { OnOk result (AppendsPacket (packet_of packet.now) out.old.items out.new.items) }
    ensures many { IsErrOf result PacketEnd.TooMany ↔ IsTooMany (packet_of packet.now) }
    ensures long { (value : ℕ) → IsErrOf result (PacketEnd.LongText value) ↔ ((IsTooMany (packet_of packet.now) → ⊥) × IsLongText (packet_of packet.now) value) }
    ensures lack { (value : ℕ) (l : Lack) → IsErrOf result (PacketEnd.NoSpelling value l) → IsOnlyLack (packet_of packet.now) value l.node l.kind }
    ensures untouched { OnErr result (out.new.items ≡ out.old.items) }
{
    write_packet_keyed(alloc, None, packet, out)
}

/// Does what `write_packet` does, with tables that are looked up by these keys, or by fixed ones where there are none. What is
/// written is the same for all keys.
pub fn write_packet_keyed(
    alloc: Global,
    keys: Option<RandomState>,
    packet: &Packet,
    out: &mut Vec<u8>,
) -> Result<(), PacketEnd>
    requires version { is_version packet.now.version ≡ true }
    requires texts { HasTexts (packet_of packet.now) }
    ensures written { OnOk result (AppendsPacket (packet_of packet.now) out.old.items out.new.items) }
    ensures many { IsErrOf result PacketEnd.TooMany ↔ IsTooMany (packet_of packet.now) }
    ensures long { (value : ℕ) → IsErrOf result (PacketEnd.LongText value) ↔ ((IsTooMany (packet_of packet.now) → ⊥) × IsLongText (packet_of packet.now) value) }
    ensures lack { (value : ℕ) (l : Lack) → IsErrOf result (PacketEnd.NoSpelling value l) → IsOnlyLack (packet_of packet.now) value l.node l.kind }
    ensures untouched { OnErr result (out.new.items ≡ out.old.items) }
{
    if is_too_many(packet) {
        return Err(PacketEnd::TooMany);
    }
    match first_long(packet) {
        Some(value) => Err(PacketEnd::LongText(value)),
        None => append_whole(alloc, keys, packet, out),
    }
}

/// Appends a packet whose counts and texts fit their fields. After an end `out` is as before.
fn append_whole(
    alloc: Global,
    keys: Option<RandomState>,
    packet: &Packet,
    out: &mut Vec<u8>,
) -> Result<(), PacketEnd>
    requires version { is_version packet.now.version ≡ true }
    requires headers { length packet.now.headers < 2 ^ 16 }
    requires messages { length packet.now.messages < 2 ^ 16 }
    requires texts { AllByRecursion FitTexts (texts_by_value (packet_of packet.now)) }
    ensures writes { Writes (SpellsPacket canonical (packet_of packet.now)) (LacksFirst 0 (bodies (packet_of packet.now))) out.old.items out.new.items result }
    ensures untouched { OnErr result (out.new.items ≡ out.old.items) }
{
    let start = out.len();
    match append_packet(alloc, keys, packet, out) {
        Ok(()) => Ok(()),
        Err(end) => {
            out.truncate(start);
            Err(end)
        }
    }
}
