//! Messages that are stored, read from their bytes.

ghost use Rattle.std.specs.Prelude.{◌≡◌, ◌+◌, ◌≤◌, ◌↔◌, length, IfOk, IfSome, IsNone};
ghost use Rattle.std.specs.Option.{option_map};
ghost use Rattle.amf_io.specs.Cursor.{source_of, place, bound, unread};
ghost use Rattle.amf_io.specs.ReadEnds.{Goes};
ghost use Rattle.amf_wire.specs.Style.{free};
ghost use Rattle.amf_graph.specs.Bounds.{weight};
ghost use Rattle.amf_graph.specs.Rooted.{content};
ghost use Rattle.amf3_spelling.specs.Spells3.{Spelled3};
ghost use Rattle.flex_msgs.specs.Built.{IsStored as HoldsStored};
ghost use Rattle.amf_flex_replies.specs.Batching.{AnswersValue};
ghost use Rattle.amf_answer_plan.specs.Runs.{Finds, IsStored};

use amf_answer_plan::messages::finished;
use amf_broker::MAX_MESSAGE;
use amf_graph::{Builder, Rooted};
use amf_io::{Cursor, Empty, ReadEnd, Source};
use amf_tables::Tables3;
use amf_wire::Memory;
use amf3_read::read3;
use flex_msgs::is_stored;
use std::alloc::Global;
use std::hash::RandomState;

/// The graph that the next bytes of a cursor spell in AMF 3, from empty tables.
fn read_value<S: Source>(
    alloc: Global,
    keys: Option<RandomState>,
    cursor: &mut Cursor<'_, S>,
) -> Result<Rooted, ReadEnd>
    requires limit { bound cursor.old ≡ MAX_MESSAGE }
    ensures goes { Goes S.Source cursor.old cursor.new result }
    ensures answers { AnswersValue (S.tells (source_of cursor.old).now) (unread S.left cursor.old) (unread S.left cursor.new) (place cursor.old) (place cursor.new) result }
    ensures light { IfOk result (λ graph. place cursor.old + weight graph.arena ≤ place cursor.new) }
{
    let mut builder = Builder::keyed(alloc, keys)?;
    let mut tables = Tables3::new(alloc)?;
    let root = read3(alloc, cursor, &mut builder, &mut tables)?;
    Ok(finished(builder, root))
}

/// The graph that all of the bytes spell in AMF 3, if they spell one. It gives up where there is no memory.
fn spelled_by(
    alloc: Global,
    keys: Option<RandomState>,
    bytes: &[u8],
) -> Result<Option<Rooted>, Memory>
    requires { length bytes.now ≤ MAX_MESSAGE }
    ensures finds { IfOk result (λ g. Finds (λ h. Spelled3 free h bytes.now) (option_map content g)) }
    ensures light { IfOk result (λ g. IfSome g (λ g. weight g.arena ≤ MAX_MESSAGE)) }
{
    let mut end = Empty;
    let mut cursor = Cursor::over_bytes(alloc, &mut end, bytes, MAX_MESSAGE)?;
    let graph = match read_value(alloc, keys, &mut cursor) {
        Ok(graph) => graph,
        Err(ReadEnd::Refused(_)) => return Ok(None),
        Err(ReadEnd::Memory) => return Err(Memory),
        // No read of bytes in memory fails.
        Err(ReadEnd::ReadFault) => unreachable!(),
    };
    if cursor.is_at_end() {
        Ok(Some(graph))
    } else {
        Ok(None)
    }
}

/// The graph, if it is a stored message.
fn if_stored(graph: Rooted) -> Option<Rooted>
    ensures some { IfSome result (λ g. HoldsStored g × (g ≡ graph)) }
    ensures none { IsNone result → HoldsStored graph → ⊥ }
{
    if is_stored(&graph) { Some(graph) } else { None }
}

/// The message that was stored with these bytes, if they are those of one. It gives up where there is no memory.
pub fn read_stored(
    alloc: Global,
    keys: Option<RandomState>,
    message: &[u8],
) -> Result<Option<Rooted>, Memory>
    requires { length message.now ≤ MAX_MESSAGE }
    ensures finds { IfOk result (λ g. Finds (λ h. IsStored h message.now) (option_map content g)) }
    ensures stored { IfOk result (λ g. IfSome g (λ g. HoldsStored g)) }
    ensures light { IfOk result (λ g. IfSome g (λ g. weight g.arena ≤ MAX_MESSAGE)) }
{
    match spelled_by(alloc, keys, message)? {
        Some(graph) => Ok(if_stored(graph)),
        None => Ok(None),
    }
}
