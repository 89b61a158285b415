ghost use Rattle.std.specs.Prelude.{◌≡◌, ◌≤◌, ◌+◌, length, [], List, ℕ, OnOk};
ghost use Rattle.amf_io.specs.Cursor.{source_of, place, bound, unread};
ghost use Rattle.amf_io.specs.ReadEnds.{Goes, IsPlaced};
ghost use Rattle.rtmp_chunks.specs.Chunk.{Message as Seen, Unfinished};
ghost use Rattle.rtmp_chunks.specs.Push.{IsPushable};
ghost use Rattle.rtmp_chunks.specs.Table.{message_seen, ListsAll};
ghost use Rattle.rtmp_rechunk.specs.Pass.{most, CountsReads, CountsWrites};
ghost use Rattle.rtmp_rechunk.specs.Ends.{reading};
ghost use Rattle.rtmp_rechunk.specs.Reads.{HandsOn, TakesBy, PassesUnread, PassesLeft};

use crate::handler::Handler;
use crate::pass_end::PassEnd;
use crate::writing::write_much;
use amf_io::{Cursor, Sink, Source};
use rtmp_chunks::{Chunks, Message, read_handshake};
use std::alloc::Global;

/// Hands a message on, and writes what waits where it is much.
fn hand_on<H: Handler, O: Sink>(
    alloc: Global,
    handler: &mut H,
    message: &Message,
    out: &mut O,
    waiting: &mut Vec<u8>,
) -> Result<(), PassEnd>
    requires { IsPushable (message_seen message.now) }
    ensures tells { O.tells out.new → O.tells out.old }
    ensures hands { HandsOn O.Sink (H.says handler.old (message_seen message.now)) out.old out.new waiting.old.items waiting.new.items result }
    ensures still { (m : Seen) (bytes : List ℕ) → H.says handler.new m bytes → H.says handler.old m bytes }
    ensures same_end { (open_ones : List Unfinished) (bytes : List ℕ) → H.ends handler.new open_ones bytes → H.ends handler.old open_ones bytes }
    ensures counts { CountsWrites (O.faults out.old) (O.faults out.new) result }
{
    handler.message(alloc, message, waiting)?;
    match write_much(out, waiting) {
        Ok(()) => Ok(()),
        Err(_) => Err(PassEnd::WriteFault),
    }
}

/// Hands on each message up to the end of the input.
fn read_messages<H: Handler, S: Source, O: Sink>(
    alloc: Global,
    handler: &mut H,
    cursor: &mut Cursor<'_, S>,
    chunks: &mut Chunks,
    out: &mut O,
    waiting: &mut Vec<u8>,
) -> Result<(), PassEnd>
    requires { IsPlaced cursor.old }
    ensures goes { Goes S.Source cursor.old cursor.new (reading result) }
    ensures tells { O.tells out.new → O.tells out.old }
    ensures takes { TakesBy S.Source O.Sink (H.says handler.old) chunks.old chunks.new cursor.old cursor.new out.old out.new waiting.old.items
        waiting.new.items result }
    ensures listed { OnOk result (ListsAll chunks.new) }
    ensures same_end { (open_ones : List Unfinished) (bytes : List ℕ) → H.ends handler.new open_ones bytes → H.ends handler.old open_ones bytes }
    ensures counts { CountsWrites (O.faults out.old) (O.faults out.new) result }
{
    while let Some(message) = chunks.next(alloc, cursor)? {
        hand_on(alloc, handler, &message, out, waiting)?;
    }
    Ok(())
}

/// Hands on the handshake, each message, and at the end the unfinished ones.
fn read_all<H: Handler, S: Source, O: Sink>(
    alloc: Global,
    handler: &mut H,
    cursor: &mut Cursor<'_, S>,
    out: &mut O,
    waiting: &mut Vec<u8>,
) -> Result<(), PassEnd>
    requires start { place cursor.old ≡ 0 }
    requires limit { bound cursor.old ≡ most }
    requires none { waiting.old.items ≡ [] }
    ensures goes { Goes S.Source cursor.old cursor.new (reading result) }
    ensures tells { O.tells out.new → O.tells out.old }
    ensures passes { PassesUnread S.Source O.Sink (H.begins handler.old) (H.says handler.old) (H.ends handler.old) cursor.old cursor.new out.old out.new
        waiting.new.items result }
    ensures counts { CountsWrites (O.faults out.old) (O.faults out.new) result }
{
    let mut handshake = Vec::new(alloc);
    read_handshake(alloc, cursor, &mut handshake)?;
    handler.begin(alloc, &handshake, waiting)?;
    let mut chunks = Chunks::new(alloc)?;
    read_messages(alloc, handler, cursor, &mut chunks, out, waiting)?;
    handler.finish(alloc, chunks.open(), waiting)?;
    Ok(())
}

/// The same, told by what the source has left.
pub(crate) fn read_whole<H: Handler, S: Source, O: Sink>(
    alloc: Global,
    handler: &mut H,
    cursor: &mut Cursor<'_, S>,
    out: &mut O,
    waiting: &mut Vec<u8>,
) -> Result<(), PassEnd>
    requires start { place cursor.old ≡ 0 }
    requires limit { bound cursor.old ≡ most }
    requires none { waiting.old.items ≡ [] }
    ensures taken { S.tells (source_of cursor.old).now → length (unread S.left cursor.old) ≤ length (S.left (source_of cursor.new).now) + (most + 1) }
    ensures same_reference { (source_of cursor.new).ghost_name ≡ (source_of cursor.old).ghost_name }
    ensures tells { O.tells out.new → O.tells out.old }
    ensures passes { PassesLeft S.Source O.Sink (H.begins handler.old) (H.says handler.old) (H.ends handler.old) cursor.old cursor.new out.old out.new
        waiting.new.items result }
    ensures reads { CountsReads (S.faults (source_of cursor.old).now) (S.faults (source_of cursor.new).now) result }
    ensures writes { CountsWrites (O.faults out.old) (O.faults out.new) result }
{
    read_all(alloc, handler, cursor, out, waiting)
}
