ghost use Rattle.std.specs.Prelude.{◌≡◌, ℕ, ◌∷◌, ◌++◌, [], OnOk};
ghost use Rattle.std.specs.Result.{IsErrOf};
ghost use Rattle.amf_wire.specs.Style.{canonical};
ghost use Rattle.amf_graph.specs.declared.lack.Lack.{Lack};
ghost use Rattle.amf_graph.specs.Rooted.{content};
ghost use Rattle.amf_packet.specs.Content.{body_of};
ghost use Rattle.amf_packet.specs.Packet.{BodyBy};
ghost use Rattle.amf_packet.specs.PacketLacks.{IsBodyLack};
ghost use Rattle.amf_packet.specs.WriteParts.{Grows, Appends, LacksHere, Writes};

use crate::{Body, PacketEnd};
use amf_graph::{Rooted, WriteEnd};
use amf0_spelling::Form;
use amf0_write::write_lowered0;
use amf3_write::write3_keyed;
use std::alloc::Global;
use std::hash::RandomState;

/// The bytes before the item of a call: a strict array of one item, and the marker of AMF 3 (AMF 0, 2.12 and 3.1).
const CALL: [u8; 6] = [0x0A, 0x00, 0x00, 0x00, 0x01, 0x11];

/// Appends the item of a call.
fn append_call(
    alloc: Global,
    keys: Option<RandomState>,
    graph: &Rooted,
    out: &mut Vec<u8>,
) -> Result<(), WriteEnd>
    ensures written { OnOk result (Appends (BodyBy canonical Form.Call (content graph.now)) out.old.items out.new.items) }
    ensures lack { (l : Lack) → IsErrOf result (WriteEnd.NoSpelling l) → IsBodyLack Form.Call (content graph.now) l.node l.kind }
    ensures grows { Grows out.old.items out.new.items }
{
    out.extend_from_slice(&CALL)?;
    write3_keyed(alloc, keys, graph, out)
}

/// Appends a value behind the marker of AMF 3 (AMF 0, 3.1).
fn append_amf3(
    alloc: Global,
    keys: Option<RandomState>,
    graph: &Rooted,
    out: &mut Vec<u8>,
) -> Result<(), WriteEnd>
    ensures written { OnOk result (Appends (BodyBy canonical Form.Amf3 (content graph.now)) out.old.items out.new.items) }
    ensures lack { (l : Lack) → IsErrOf result (WriteEnd.NoSpelling l) → IsBodyLack Form.Amf3 (content graph.now) l.node l.kind }
    ensures grows { Grows out.old.items out.new.items }
{
    out.push(0x11)?;
    write3_keyed(alloc, keys, graph, out)
}

/// Appends a value in the kinds that AMF 0 has.
fn append_plain(alloc: Global, graph: &Rooted, out: &mut Vec<u8>) -> Result<(), WriteEnd>
    ensures written { OnOk result (Appends (BodyBy canonical Form.Plain (content graph.now)) out.old.items out.new.items) }
    ensures lack { (l : Lack) → IsErrOf result (WriteEnd.NoSpelling l) → IsBodyLack Form.Plain (content graph.now) l.node l.kind }
    ensures grows { Grows out.old.items out.new.items }
{
    write_lowered0(alloc, graph, out)
}

/// Appends a value in this form.
pub fn append_formed(
    alloc: Global,
    keys: Option<RandomState>,
    form: Form,
    graph: &Rooted,
    out: &mut Vec<u8>,
) -> Result<(), WriteEnd>
    ensures written { OnOk result (Appends (BodyBy canonical form (content graph.now)) out.old.items out.new.items) }
    ensures lack { (l : Lack) → IsErrOf result (WriteEnd.NoSpelling l) → IsBodyLack form (content graph.now) l.node l.kind }
    ensures grows { Grows out.old.items out.new.items }
{
    match form {
        Form::Call => append_call(alloc, keys, graph, out),
        Form::Amf3 => append_amf3(alloc, keys, graph, out),
        Form::Plain => append_plain(alloc, graph, out),
    }
}

/// Appends a value in its form. The value has this number.
pub fn append_body(
    alloc: Global,
    keys: Option<RandomState>,
    body: &Body,
    value: u32,
    out: &mut Vec<u8>,
) -> Result<(), PacketEnd>
    ensures writes { Writes (BodyBy canonical (body_of body.now).form (body_of body.now).graph) (LacksHere (body_of body.now) value) out.old.items out.new.items result }
    ensures grows { Grows out.old.items out.new.items }
{
    match append_formed(alloc, keys, body.form(), body.graph(), out) {
        Ok(()) => Ok(()),
        Err(WriteEnd::Memory) => Err(PacketEnd::Memory),
        Err(WriteEnd::NoSpelling(lack)) => Err(PacketEnd::NoSpelling { value, lack }),
    }
}
