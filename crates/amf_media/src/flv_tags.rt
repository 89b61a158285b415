//! From tag to tag of an FLV file: one is held at a time.

ghost use Rattle.amf_io.specs.Stretch.{between};
ghost use Rattle.flv_meta.specs.FileAnswers.{IsStoredTag};
ghost use Rattle.amf_media.specs.FlvSteps.{Moves, ended, Keeps, PutsStoredTag, StepsTag, CopiesTags};
ghost use Rattle.amf_media.specs.Written.{CountsPuts};

use crate::ending::MediaEnd;
use crate::flv_show::show_tag;
use crate::gather::put;
use amf_io::{Cursor, Sink, Source};
use flv_meta::{FlvJob, Tag, is_metadata, next_tag};
use std::alloc::Global;
use std::hash::RandomState;

/// Puts a tag as it is, if it is no metadata, for a job that keeps tags.
fn keep_tag<O: Sink>(
    job: FlvJob,
    tag: &Tag,
    out: &mut O,
    waiting: &mut Vec<u8>,
) -> Result<(), MediaEnd>
    requires keeps { Keeps job }
    requires stored { IsStoredTag tag.now }
    ensures tells { O.tells out.new → O.tells out.old }
    ensures puts { PutsStoredTag O.Sink job tag.now out.old out.new waiting.old.items waiting.new.items result }
    ensures counts { CountsPuts (O.faults out.old) (O.faults out.new) result }
{
    if is_metadata(tag) {
        return Ok(());
    }
    put(waiting, tag.bytes.as_slice(), out)
}

/// Puts what a tag gives.
fn put_tag<O: Sink>(
    alloc: Global,
    keys: Option<RandomState>,
    job: FlvJob,
    tag: &Tag,
    out: &mut O,
    waiting: &mut Vec<u8>,
) -> Result<(), MediaEnd>
    requires { IsStoredTag tag.now }
    ensures tells { O.tells out.new → O.tells out.old }
    ensures puts { PutsStoredTag O.Sink job tag.now out.old out.new waiting.old.items waiting.new.items result }
    ensures counts { CountsPuts (O.faults out.old) (O.faults out.new) result }
{
    match job {
        FlvJob::Show => show_tag(alloc, keys, tag, out, waiting),
        FlvJob::Drop => keep_tag(job, tag, out, waiting),
        FlvJob::Set => keep_tag(job, tag, out, waiting),
    }
}

/// Reads the next tag, and puts what it gives. It gives `false` where the input ends.
fn copy_tag<S: Source, O: Sink>(
    alloc: Global,
    keys: Option<RandomState>,
    job: FlvJob,
    cursor: &mut Cursor<'_, S>,
    out: &mut O,
    waiting: &mut Vec<u8>,
) -> Result<bool, MediaEnd>
    ensures moves { Moves S.tells S.left S.faults cursor.old cursor.new (ended result) }
    ensures tells { O.tells out.new → O.tells out.old }
    ensures steps { StepsTag job (between S.tells S.left cursor.old cursor.new)
        (O.tells out.new) (O.held out.old) (O.held out.new) waiting.old.items waiting.new.items result }
    ensures counts { CountsPuts (O.faults out.old) (O.faults out.new) result }
{
    // What is true of every cursor.
    let _start = cursor.at();
    let Some(tag) = next_tag(alloc, cursor)? else {
        return Ok(false);
    };
    put_tag(alloc, keys, job, &tag, out, waiting)?;
    Ok(true)
}

/// Reads tag after tag to the end of the input, and puts what they give.
pub(crate) fn copy_tags<S: Source, O: Sink>(
    alloc: Global,
    keys: Option<RandomState>,
    job: FlvJob,
    cursor: &mut Cursor<'_, S>,
    out: &mut O,
    waiting: &mut Vec<u8>,
) -> Result<(), MediaEnd>
    ensures moves { Moves S.tells S.left S.faults cursor.old cursor.new (ended result) }
    ensures tells { O.tells out.new → O.tells out.old }
    ensures copies { CopiesTags job (between S.tells S.left cursor.old cursor.new)
        (O.tells out.new) (O.held out.old) (O.held out.new) waiting.old.items waiting.new.items result }
    ensures counts { CountsPuts (O.faults out.old) (O.faults out.new) result }
{
    // What is true of every cursor.
    let _start = cursor.at();
    'tags: while copy_tag(alloc, keys, job, cursor, out, waiting)? {}
    Ok(())
}
