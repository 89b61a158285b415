ghost use Rattle.std.specs.Prelude.{IfOk, IfSome, IfNone, MatchOption};
ghost use Rattle.amf_graph.specs.Arena.{IsTextId, text_at};
ghost use Rattle.amf_graph.specs.Order.{Absent};
ghost use Rattle.amf_tables.specs.FirstPlace.{IsFirstPlace};
ghost use Rattle.amf_tables.specs.KnownTexts.{AreNotedOf};
ghost use Rattle.amf_tables.specs.ShownTraits.{AreTextIds, texts_at};
ghost use Rattle.amf_tables.specs.TextCodes.{IsCodeOf, IsUncoded, AreCodesFound};

use crate::known_texts::KnownTexts;
use crate::text_table::TextTable;
use amf_graph::{Rooted, TextId};
use amf_wire::Memory;
use std::alloc::Global;

/// The code of the empty text, which has no place; the code of another text is its first place. A text that stands first at
/// this place has no code.
pub(crate) const EMPTY: u32 = 4_294_967_295;

/// The first place of a text of a graph, by the number of its content where that tells it, and else by its bytes.
fn place_of(text: TextId, graph: &Rooted, texts: &TextTable, known: &KnownTexts) -> Option<u32>
    requires id { IsTextId graph.now.arena text.0 }
    requires known { AreNotedOf graph.now.arena texts.now known.now }
    ensures first { IfSome result (IsFirstPlace texts.now (text_at graph.now.arena text.0)) }
    ensures none { IfNone result (Absent texts.now (text_at graph.now.arena text.0)) }
{
    if let Some(place) = known.place_of(graph.text_number(text)) {
        return Some(place);
    }
    if known.covers(texts.len()) {
        return None;
    }
    texts.place_of(graph.text(text))
}

/// The code of a text of a graph: `None` exactly where it has none.
pub(crate) fn code_of(
    text: TextId,
    graph: &Rooted,
    texts: &TextTable,
    known: &KnownTexts,
) -> Option<u32>
    requires id { IsTextId graph.now.arena text.0 }
    requires known { AreNotedOf graph.now.arena texts.now known.now }
    ensures { MatchOption result (IsUncoded texts.now (text_at graph.now.arena text.0)) (IsCodeOf texts.now (text_at graph.now.arena text.0)) }
{
    if graph.text(text).is_empty() {
        return Some(EMPTY);
    }
    let place = place_of(text, graph, texts, known)?;
    if place == EMPTY { None } else { Some(place) }
}

/// The codes of texts of a graph: `None` exactly where one of them has none.
pub(crate) fn codes_of(
    alloc: Global,
    ids: &[TextId],
    graph: &Rooted,
    texts: &TextTable,
    known: &KnownTexts,
) -> Result<Option<Vec<u32>>, Memory>
    requires ids { AreTextIds graph.now.arena ids.now }
    requires known { AreNotedOf graph.now.arena texts.now known.now }
    ensures { IfOk result (AreCodesFound texts.now (texts_at graph.now.arena ids.now)) }
{
    let mut codes = Vec::new(alloc);
    for id in ids {
        match code_of(*id, graph, texts, known) {
            Some(code) => codes.push(code)?,
            None => return Ok(None),
        }
    }
    Ok(Some(codes))
}
