ghost use Rattle.std.specs.Prelude.{◌≡◌, ◌≤◌, ◌+◌, length, []};
ghost use Rattle.rtmp_rechunk.specs.Pass.{most, PassesOver, CountsReads, CountsWrites};
ghost use Rattle.rtmp_rechunk.specs.Reads.{PassesInput, lost};

use crate::handler::Handler;
use crate::pass_end::PassEnd;
use crate::reading::read_whole;
use amf_io::{Cursor, Sink, Source, Window, write_whole};
use std::alloc::Global;

/// The most bytes of an input.
const MOST: u32 = 0xFFFF_FFFF;

/// Reads an input to its end, and puts what a handler makes of it.
fn read_input<H: Handler, I: Source, O: Sink>(
    alloc: Global,
    handler: &mut H,
    input: &mut I,
    out: &mut O,
    waiting: &mut Vec<u8>,
) -> Result<(), PassEnd>
    requires none { waiting.old.items ≡ [] }
    ensures tells { O.tells out.new → O.tells out.old }
    ensures passes { PassesInput I.Source O.Sink (H.begins handler.old) (H.says handler.old) (H.ends handler.old) input.old input.new out.old out.new
        waiting.new.items result }
    ensures taken { I.tells input.old → length (I.left input.old) ≤ length (I.left input.new) + (most + 1) }
    ensures reads { CountsReads (I.faults input.old) (I.faults input.new) result }
    ensures writes { CountsWrites (O.faults out.old) (O.faults out.new) result }
{
    let window = Window::new(alloc, MOST)?;
    let mut cursor = Cursor::over(input, window);
    read_whole(alloc, handler, &mut cursor, out, waiting)
}

/// Whether the output is lost: a write failed, or there was no memory.
fn is_lost(ended: &Result<(), PassEnd>) -> bool
    ensures { result ≡ lost ended.now }
{
    matches!(ended, Err(PassEnd::WriteFault | PassEnd::Memory))
}

/// Reads a chunk stream of at most 4,294,967,295 bytes to its end (Adobe's RTMP specification 1.0, 5.2 and 5.3), and writes what a
/// handler makes of its handshake, of each message, and of the unfinished ones at the end. It holds the unfinished messages as far
/// as they came, and what is not yet written: at most 65,536 bytes and what the last message gave.
///
/// With `Refused` and `ReadFault` all is written that the messages before give, with `WriteFault` and
/// `Memory` a front of what the handler makes of some of them. Of a longer input no more than one byte past these is taken, in each end.
pub fn pass_over<H: Handler, I: Source, O: Sink>(
    alloc: Global,
    handler: &mut H,
    input: &mut I,
    out: &mut O,
) -> Result<(), PassEnd>
    ensures tells { O.tells out.new → O.tells out.old }
    ensures passes { PassesOver I.Source O.Sink (H.begins handler.old) (H.says handler.old) (H.ends handler.old) input.old input.new out.old out.new result }
    ensures taken { I.tells input.old → length (I.left input.old) ≤ length (I.left input.new) + (most + 1) }
    ensures reads { CountsReads (I.faults input.old) (I.faults input.new) result }
    ensures writes { CountsWrites (O.faults out.old) (O.faults out.new) result }
{
    let mut waiting = Vec::new(alloc);
    let ended = read_input(alloc, handler, input, out, &mut waiting);
    if is_lost(&ended) {
        return ended;
    }
    match write_whole(out, &waiting) {
        Ok(()) => ended,
        Err(_) => Err(PassEnd::WriteFault),
    }
}
