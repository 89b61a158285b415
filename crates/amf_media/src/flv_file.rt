//! The work on a whole FLV file.

ghost use Rattle.std.specs.Prelude.{◌≡◌, ◌++◌, []};
ghost use Rattle.amf_io.specs.Cursor.{bound};
ghost use Rattle.amf_media.specs.FlvRuns.{most, IsFileEnd};
ghost use Rattle.amf_media.specs.FlvSteps.{Moves, ended, head_put, CopiesFile, RunsFile, Closes, ClosesBy};
ghost use Rattle.amf_media.specs.Written.{Puts, IsPutEnd, CountsPuts, CountsWrites};

use crate::ending::MediaEnd;
use crate::flv_tags::copy_tags;
use crate::gather::put;
use amf_io::{Cursor, Sink, Source, write_whole};
use flv_meta::{FlvJob, read_head};
use std::alloc::Global;
use std::hash::RandomState;

/// Puts a head, and what stands behind it.
fn put_both<O: Sink>(
    head: &[u8],
    start: &[u8],
    out: &mut O,
    waiting: &mut Vec<u8>,
) -> Result<(), MediaEnd>
    ensures tells { O.tells out.new → O.tells out.old }
    ensures puts { O.tells out.new
        → Puts (O.held out.old) (O.held out.new) waiting.old.items waiting.new.items (head.now ++ start.now) result }
    ensures ends { IsPutEnd result }
    ensures counts { CountsPuts (O.faults out.old) (O.faults out.new) result }
{
    put(waiting, head, out)?;
    put(waiting, start, out)
}

/// Puts the head of a file where the job writes one, and what stands behind it.
fn put_head<O: Sink>(
    job: FlvJob,
    start: &[u8],
    head: &[u8],
    out: &mut O,
    waiting: &mut Vec<u8>,
) -> Result<(), MediaEnd>
    ensures tells { O.tells out.new → O.tells out.old }
    ensures puts { O.tells out.new
        → Puts (O.held out.old) (O.held out.new) waiting.old.items waiting.new.items (head_put job start.now head.now) result }
    ensures ends { IsPutEnd result }
    ensures counts { CountsPuts (O.faults out.old) (O.faults out.new) result }
{
    match job {
        FlvJob::Show => Ok(()),
        FlvJob::Drop => put(waiting, head, out),
        FlvJob::Set => put_both(head, start, out, waiting),
    }
}

/// Reads a file to the end of the input, and puts what the job makes of it; with `Set`, `start` is the tag behind the head.
fn copy_file<S: Source, O: Sink>(
    alloc: Global,
    keys: Option<RandomState>,
    job: FlvJob,
    start: &[u8],
    cursor: &mut Cursor<'_, S>,
    out: &mut O,
    waiting: &mut Vec<u8>,
) -> Result<(), MediaEnd>
    requires limit { bound cursor.old ≡ most }
    requires none { waiting.old.items ≡ [] }
    ensures moves { Moves S.tells S.left S.faults cursor.old cursor.new (ended result) }
    ensures tells { O.tells out.new → O.tells out.old }
    ensures copies { CopiesFile S.Source O.Sink job start.now cursor.old cursor.new out.old out.new waiting.new.items (ended result) }
    ensures ends { IsFileEnd (ended result) }
    ensures counts { CountsPuts (O.faults out.old) (O.faults out.new) result }
{
    // What is true of every cursor.
    let _start = cursor.at();
    let mut head = Vec::new(alloc);
    read_head(alloc, cursor, &mut head)?;
    put_head(job, start, &head, out, waiting)?;
    copy_tags(alloc, keys, job, cursor, out, waiting)
}

/// Writes what waits, and has the sink hand it on.
fn write_rest<O: Sink>(end: MediaEnd, waiting: &[u8], out: &mut O) -> MediaEnd
    ensures tells { O.tells out.new → O.tells out.old }
    ensures closes { Closes end result (O.tells out.new) (O.held out.old) (O.held out.new) waiting.now (O.faults out.old) (O.faults out.new) }
{
    match write_whole(out, waiting) {
        Ok(()) => end,
        Err(_) => MediaEnd::WriteFault,
    }
}

/// Writes what waits, unless a write failed before or there was no memory: the work ends as it did, or by a write fault.
fn close<O: Sink>(end: MediaEnd, waiting: &[u8], out: &mut O) -> MediaEnd
    ensures tells { O.tells out.new → O.tells out.old }
    ensures closes { ClosesBy end result (O.tells out.new) (O.held out.old) (O.held out.new) waiting.now (O.faults out.old) (O.faults out.new) }
{
    match end {
        MediaEnd::Done => write_rest(end, waiting, out),
        MediaEnd::Refused(_) => write_rest(end, waiting, out),
        MediaEnd::ReadFault => write_rest(end, waiting, out),
        MediaEnd::WriteFault => end,
        MediaEnd::Memory => end,
        MediaEnd::NoForm(_) => end,
        MediaEnd::LongData => end,
    }
}

/// The end of the copying.
fn end_of(copied: Result<(), MediaEnd>) -> MediaEnd
    ensures { result ≡ ended copied }
{
    match copied {
        Ok(()) => MediaEnd::Done,
        Err(end) => end,
    }
}

/// Does the job on the file that the input has from here on.
pub(crate) fn run_file<S: Source, O: Sink>(
    alloc: Global,
    keys: Option<RandomState>,
    job: FlvJob,
    start: &[u8],
    cursor: &mut Cursor<'_, S>,
    out: &mut O,
) -> MediaEnd
    requires limit { bound cursor.old ≡ most }
    ensures moves { Moves S.tells S.left S.faults cursor.old cursor.new result }
    ensures tells { O.tells out.new → O.tells out.old }
    ensures runs { RunsFile S.Source O.Sink job start.now cursor.old cursor.new out.old out.new result }
    ensures ends { IsFileEnd result }
    ensures counts { CountsWrites (O.faults out.old) (O.faults out.new) result }
{
    let mut waiting = Vec::new(alloc);
    let copied = copy_file(alloc, keys, job, start, cursor, out, &mut waiting);
    let end = end_of(copied);
    close(end, &waiting, out)
}
