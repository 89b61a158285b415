ghost use Rattle.std.specs.Prelude.{◌≡◌, ◌↔◌, map, IfOk, IsTrue};
ghost use Rattle.amf_tables.specs.ShownTraits.{AreTextIds, texts_at};
ghost use Rattle.amf_tables.specs.TextCodes.{text_of};

use crate::text_table::TextTable;
use amf_graph::{Rooted, TextId};
use amf_wire::{Memory, Name};
use std::alloc::Global;

/// Whether a text is made of these bytes.
pub(crate) fn is_text(text: &Name, bytes: &[u8]) -> bool
    ensures { IsTrue result ↔ (text.now ≡ bytes.now) }
{
    text.as_bytes() == bytes
}

/// Copies of texts of a graph.
#[tactic(auto, using(crate::proofs::ShownTexts::copied))]
pub(crate) fn copies_of(alloc: Global, ids: &[TextId], graph: &Rooted) -> Result<Vec<Name>, Memory>
    requires { AreTextIds graph.now.arena ids.now }
    ensures { IfOk result (λ texts. texts.items ≡ texts_at graph.now.arena ids.now) }
{
    let mut texts = Vec::new(alloc);
    for id in ids {
        texts.push(Name::of_bytes(alloc, graph.text(*id))?)?;
    }
    Ok(texts)
}

/// Whether these are the texts of a graph, in order.
#[tactic(auto, using(crate::proofs::ShownTexts::compared))]
pub(crate) fn are_texts(texts: &[Name], ids: &[TextId], graph: &Rooted) -> bool
    requires { AreTextIds graph.now.arena ids.now }
    ensures { IsTrue result ↔ (texts.now ≡ texts_at graph.now.arena ids.now) }
{
    if texts.len() != ids.len() {
        return false;
    }
    for (text, id) in texts.iter().zip(ids) {
        if !is_text(text, graph.text(*id)) {
            return false;
        }
    }
    true
}

/// Whether the texts of these codes are those of a graph, in order.
#[tactic(auto, using(crate::proofs::ShownTexts::named))]
pub(crate) fn are_named(codes: &[u32], ids: &[TextId], graph: &Rooted, texts: &TextTable) -> bool
    requires { AreTextIds graph.now.arena ids.now }
    ensures { IsTrue result ↔ (map (text_of texts.now) codes.now ≡ texts_at graph.now.arena ids.now) }
{
    if codes.len() != ids.len() {
        return false;
    }
    for (code, id) in codes.iter().zip(ids) {
        if !texts.is_named(*code, graph.text(*id)) {
            return false;
        }
    }
    true
}
