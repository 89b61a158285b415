ghost use Rattle.std.specs.Prelude.{◌≡◌, ◌+◌, ◌≤◌, length, IfSome};
ghost use Rattle.amf_media.specs.FlvRuns.{most, IsFileEnd, CountsReads};
ghost use Rattle.amf_media.specs.RtmpRuns.{IsChunkSize, RunsStream, stream_end};
ghost use Rattle.amf_media.specs.Written.{CountsWrites};

use crate::ending::MediaEnd;
use amf_io::{Sink, Source};
use rtmp_listing::Lister;
use rtmp_rechunk::{PassEnd, pass_over, rechunk};
use std::alloc::Global;
use std::hash::RandomState;

/// Goes over a chunk stream of at most 4,294,967,295 bytes, one direction of an RTMP connection (Adobe's RTMP specification 1.0, 5.2
/// to 5.4). Without a size its messages are listed; with a size from 1 to 2,147,483,647 it is written again in chunks of so many
/// bytes. It holds the unfinished messages as far as they came, the headers of up to 65,600 chunk streams, and what waits to be
/// written: at most 65,536 bytes and what one message gives.
///
/// With `Done` the output has taken all that is made of the stream. With `Refused` and `ReadFault` it has taken what the handshake
/// and the messages before give, with `WriteFault` and `Memory` a front of what some of them give. It reads no more than one byte
/// behind the most that an input may have. `NoForm` and `LongData` do not come.
///
/// Texts of values that are listed are looked up by fixed keys, so whoever knows them can make a stream that takes long:
/// `rtmp_keyed` is passed others.
pub fn rtmp<I: Source, O: Sink>(
    alloc: Global,
    size: Option<u32>,
    input: &mut I,
    out: &mut O,
) -> MediaEnd
    requires { IfSome size IsChunkSize }
    ensures tells { O.tells out.new → O.tells out.old }
    ensures runs { I.tells input.old
        → RunsStream size (I.left input.old) (I.left input.new) (O.tells out.new) (O.held out.old) (O.held out.new) result }
    ensures taken { I.tells input.old → length (I.left input.old) ≤ length (I.left input.new) + (most + 1) }
    ensures ends { IsFileEnd result }
    ensures reads { CountsReads (I.faults input.old) (I.faults input.new) result }
    ensures writes { CountsWrites (O.faults out.old) (O.faults out.new) result }
{
    rtmp_keyed(alloc, None, size, input, out)
}

/// Does what `rtmp` does, with texts that are looked up by these keys, or by fixed ones where there are none. What is written is
/// the same for all keys.
pub fn rtmp_keyed<I: Source, O: Sink>(
    alloc: Global,
    keys: Option<RandomState>,
    size: Option<u32>,
    input: &mut I,
    out: &mut O,
) -> MediaEnd
    requires { IfSome size IsChunkSize }
    ensures tells { O.tells out.new → O.tells out.old }
    ensures runs { I.tells input.old
        → RunsStream size (I.left input.old) (I.left input.new) (O.tells out.new) (O.held out.old) (O.held out.new) result }
    ensures taken { I.tells input.old → length (I.left input.old) ≤ length (I.left input.new) + (most + 1) }
    ensures ends { IsFileEnd result }
    ensures reads { CountsReads (I.faults input.old) (I.faults input.new) result }
    ensures writes { CountsWrites (O.faults out.old) (O.faults out.new) result }
{
    match size {
        None => {
            let mut lister = Lister::keyed(keys);
            end_of(pass_over(alloc, &mut lister, input, out))
        }
        Some(size) => end_of(rechunk(alloc, size, input, out)),
    }
}

/// The end of a pass as that of the job.
fn end_of(ended: Result<(), PassEnd>) -> MediaEnd
    ensures { result ≡ stream_end ended }
{
    match ended {
        Ok(()) => MediaEnd::Done,
        Err(PassEnd::Refused(refusal)) => MediaEnd::Refused(refusal),
        Err(PassEnd::ReadFault) => MediaEnd::ReadFault,
        Err(PassEnd::WriteFault) => MediaEnd::WriteFault,
        Err(PassEnd::Memory) => MediaEnd::Memory,
    }
}
