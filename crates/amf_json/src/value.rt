ghost use Rattle.std.specs.Prelude.{IfOk};
ghost use Rattle.amf_graph.specs.Rooted.{content};
ghost use Rattle.amf_json.specs.JsonTexts.{IsValueJson};

use amf_graph::Rooted;
use amf_text_write::{Layout, ValueForm, value_text};
use amf_wire::Memory;
use amf0_write::lower;
use std::alloc::Global;

/// The canonical text of a value, JSON (RFC 8259). Of a value of AMF 0 it tells the lowered graph.
///
/// It gives up where there is no memory.
pub fn value_json(
    alloc: Global,
    layout: Layout,
    form: ValueForm,
    graph: &Rooted,
) -> Result<Vec<u8>, Memory>
    ensures { IfOk result (λ bytes. IsValueJson layout form (content graph.now) bytes.items) }
{
    match form {
        ValueForm::Amf3 => value_text(alloc, layout, ValueForm::Amf3, graph),
        ValueForm::Amf0 => {
            let low = lower(alloc, graph)?;
            value_text(alloc, layout, ValueForm::Amf0, &low)
        }
    }
}
