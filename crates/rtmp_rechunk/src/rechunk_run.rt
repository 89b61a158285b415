ghost use Rattle.std.specs.Prelude.{◌<◌, ◌≤◌, ◌+◌, length};
ghost use Rattle.rtmp_rechunk.specs.Pass.{most, PassesOver, CountsReads, CountsWrites};
ghost use Rattle.rtmp_rechunk.specs.Rechunk.{Restarts, Repeats, EndsSilently};

use crate::pass::pass_over;
use crate::pass_end::PassEnd;
use crate::rechunker::Rechunker;
use amf_io::{Sink, Source};
use std::alloc::Global;

/// Writes a chunk stream again in chunks of a size from 1 to 2^31-1 bytes: its handshake, together with it the message that sets
/// the size where that is not 128, and then each message but for those that set a chunk size. What is unfinished is dropped.
/// Writes are gathered: up to 65,536 bytes wait for one.
///
/// It ends as [`pass_over`] does.
pub fn rechunk<I: Source, O: Sink>(
    alloc: Global,
    size: u32,
    input: &mut I,
    out: &mut O,
) -> Result<(), PassEnd>
    requires some { 0 < size }
    requires most { size < 2147483648 }
    ensures tells { O.tells out.new → O.tells out.old }
    ensures passes { PassesOver I.Source O.Sink (Restarts size) (Repeats size) EndsSilently input.old input.new out.old out.new result }
    ensures taken { I.tells input.old → length (I.left input.old) ≤ length (I.left input.new) + (most + 1) }
    ensures reads { CountsReads (I.faults input.old) (I.faults input.new) result }
    ensures writes { CountsWrites (O.faults out.old) (O.faults out.new) result }
{
    let mut handler = Rechunker::new(alloc, size)?;
    pass_over(alloc, &mut handler, input, out)
}
