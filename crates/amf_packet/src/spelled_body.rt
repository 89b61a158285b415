//! Values that are spelled before the packet that they go into: each has tables of its own there, so its bytes stay as they are.

use crate::write_body::append_formed;
use amf_graph::{Rooted, WriteEnd};
use amf_wire::Memory;
use amf0_spelling::Form;
use std::alloc::Global;
use std::hash::RandomState;
use std::marker::Model;

/// The canonical spelling of a value, as it stands in a packet (AMF 0, 4.3). It is seen as its bytes.
#[derive(Drop)]
pub struct SpelledBody {
    bytes: Vec<u8>,
}

impl Model for SpelledBody {
    ghost use Rattle.std.specs.Prelude.{ℕ, List};

    ghost Value = { List ℕ };

    ghost view = { λ b. b.bytes.items };
}

impl SpelledBody {
    ghost use Rattle.std.specs.Prelude.{◌≡◌, ℕ, IfOk};
    ghost use Rattle.amf_graph.specs.declared.lack.LackKind.{LackKind};
    ghost use Rattle.amf_graph.specs.Rooted.{content};
    ghost use Rattle.amf_packet.specs.PacketLacks.{IsBodyLack};
    ghost use Rattle.amf_packet.specs.SpelledBodies.{IsBodySpelling, TellsSpelling};

    /// The canonical spelling of a graph in this form, if it has one, from fresh tables, which are looked up by these keys, or by
    /// fixed ones where there are none: a `Call` as the one item, in AMF 3, of a strict array, an `Amf3` in AMF 3, and a `Plain`
    /// lowered. It gives up where there is no memory.
    pub fn of(
        alloc: Global,
        keys: Option<RandomState>,
        form: Form,
        graph: &Rooted,
    ) -> Result<Option<SpelledBody>, Memory>
        ensures { IfOk result (TellsSpelling form (content graph.now)) }
    {
        let mut bytes = Vec::new(alloc);
        match append_formed(alloc, keys, form, graph, &mut bytes) {
            Ok(()) => Ok(Some(SpelledBody { bytes })),
            Err(WriteEnd::NoSpelling(_)) => Ok(None),
            Err(WriteEnd::Memory) => Err(Memory),
        }
    }

    /// The canonical spelling of a graph that lacks nothing in this form. The tables are looked up by fixed keys, so the texts
    /// are to be few. It gives up where there is no memory.
    pub fn of_whole(alloc: Global, form: Form, graph: &Rooted) -> Result<SpelledBody, Memory>
        requires { (number : ℕ) (kind : LackKind) → IsBodyLack form (content graph.now) number kind → ⊥ }
        ensures { IfOk result (IsBodySpelling (record { form = form; graph = content graph.now })) }
    {
        let spelling = SpelledBody::of(alloc, None, form, graph)?;
        match spelling {
            Some(body) => Ok(body),
            // Nothing lacks.
            None => unreachable!(),
        }
    }

    /// The bytes.
    pub fn as_bytes(&self) -> &[u8]
        ensures { result.now ≡ self.now }
    {
        self.bytes.as_slice()
    }
}
