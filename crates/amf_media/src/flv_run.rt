ghost use Rattle.std.specs.Prelude.{◌≡◌, ◌≢◌, ◌+◌, ◌≤◌, length};
ghost use Rattle.amf_io.specs.Cursor.{source_of, place, bound, unread};
ghost use Rattle.amf_media.specs.FlvRuns.{most, first_limit, Runs, MayEnd, IsUntouched, CountsReads};
ghost use Rattle.amf_media.specs.FlvSteps.{RunsWhole};
ghost use Rattle.amf_media.specs.Written.{CountsWrites};

use crate::ending::MediaEnd;
use crate::flv_file::run_file;
use crate::flv_set::{MOST, MOST_OF_VALUE, set_metadata};
use amf_io::{Cursor, Sink, Source, Window};
use flv_meta::FlvJob;
use std::alloc::Global;
use std::hash::RandomState;

/// Up to where the first of an input is read: a file, or a value before it.
fn limit_of(job: FlvJob) -> u32
    ensures { result ≡ first_limit job }
{
    match job {
        FlvJob::Show => MOST,
        FlvJob::Drop => MOST,
        FlvJob::Set => MOST_OF_VALUE,
    }
}

/// Does a job on an FLV file of at most 4,294,967,295 bytes (Adobe, Video File Format Specification 10.1, annex E), tag by tag, of
/// which one is held at a time.
///
/// With `Done` the output has taken all that the job makes of the file: its metadata listed, the file without them, or with others.
/// With `Refused` and `ReadFault` it has taken what the head and the whole tags before give, with `WriteFault` and `Memory` a front
/// of what some of them give. It reads no more than one byte behind the most that an input may have.
///
/// With `Set` a value of AMF 0 stands before the file, each field of which is whole in the first 67,108,864 bytes. It is judged
/// first, and places are counted from its first byte. `NoForm` comes where its lowering has no spelling, `LongData` where the data
/// of its tag would have more than 16,777,215 bytes: both with `Set` alone, whatever follows the value, and nothing is written.
///
/// Texts of metadata are looked up by fixed keys, so whoever knows them can make a file that takes long: `flv_keyed` is passed
/// others.
pub fn flv<I: Source, O: Sink>(alloc: Global, job: FlvJob, input: &mut I, out: &mut O) -> MediaEnd
    ensures tells { O.tells out.new → O.tells out.old }
    ensures runs { I.tells input.old
        → Runs job (I.left input.old) (I.left input.new) (O.tells out.new) (O.held out.old) (O.held out.new) result }
    ensures taken { I.tells input.old → length (I.left input.old) ≤ length (I.left input.new) + (most + 1) }
    ensures ends { MayEnd job result }
    ensures untouched { IsUntouched out.old out.new result }
    ensures reads { CountsReads (I.faults input.old) (I.faults input.new) result }
    ensures writes { CountsWrites (O.faults out.old) (O.faults out.new) result }
{
    flv_keyed(alloc, None, job, input, out)
}

/// Does what `flv` does, with texts that are looked up by these keys, or by fixed ones where there are none. What is written is
/// the same for all keys.
pub fn flv_keyed<I: Source, O: Sink>(
    alloc: Global,
    keys: Option<RandomState>,
    job: FlvJob,
    input: &mut I,
    out: &mut O,
) -> MediaEnd
    ensures tells { O.tells out.new → O.tells out.old }
    ensures runs { I.tells input.old
        → Runs job (I.left input.old) (I.left input.new) (O.tells out.new) (O.held out.old) (O.held out.new) result }
    ensures taken { I.tells input.old → length (I.left input.old) ≤ length (I.left input.new) + (most + 1) }
    ensures ends { MayEnd job result }
    ensures untouched { IsUntouched out.old out.new result }
    ensures reads { CountsReads (I.faults input.old) (I.faults input.new) result }
    ensures writes { CountsWrites (O.faults out.old) (O.faults out.new) result }
{
    let window = match Window::new(alloc, limit_of(job)) {
        Ok(window) => window,
        Err(_) => return MediaEnd::Memory,
    };
    let mut cursor = Cursor::over(input, window);
    run_whole(alloc, keys, job, &mut cursor, out)
}

/// Does the job on all the bytes of a cursor.
fn run_whole<S: Source, O: Sink>(
    alloc: Global,
    keys: Option<RandomState>,
    job: FlvJob,
    cursor: &mut Cursor<'_, S>,
    out: &mut O,
) -> MediaEnd
    requires at_start { place cursor.old ≡ 0 }
    requires limit { bound cursor.old ≡ first_limit job }
    ensures same_reference { (source_of cursor.new).ghost_name ≡ (source_of cursor.old).ghost_name }
    ensures tells { O.tells out.new → O.tells out.old }
    ensures runs { RunsWhole S.Source O.Sink job cursor.old cursor.new out.old out.new result }
    ensures taken { S.tells (source_of cursor.old).now
        → length (unread S.left cursor.old) ≤ length (S.left (source_of cursor.new).now) + (most + 1) }
    ensures ends { MayEnd job result }
    ensures untouched { IsUntouched out.old out.new result }
    ensures reads { CountsReads (S.faults (source_of cursor.old).now) (S.faults (source_of cursor.new).now) result }
    ensures writes { CountsWrites (O.faults out.old) (O.faults out.new) result }
{
    match job {
        FlvJob::Set => set_metadata(alloc, keys, cursor, out),
        _ => run_plain(alloc, keys, job, cursor, out),
    }
}

/// Does a job that has no value before the file.
fn run_plain<S: Source, O: Sink>(
    alloc: Global,
    keys: Option<RandomState>,
    job: FlvJob,
    cursor: &mut Cursor<'_, S>,
    out: &mut O,
) -> MediaEnd
    requires plain { job ≢ FlvJob.Set }
    requires at_start { place cursor.old ≡ 0 }
    requires limit { bound cursor.old ≡ most }
    ensures same_reference { (source_of cursor.new).ghost_name ≡ (source_of cursor.old).ghost_name }
    ensures tells { O.tells out.new → O.tells out.old }
    ensures runs { RunsWhole S.Source O.Sink job cursor.old cursor.new out.old out.new result }
    ensures taken { S.tells (source_of cursor.old).now
        → length (unread S.left cursor.old) ≤ length (S.left (source_of cursor.new).now) + (most + 1) }
    ensures ends { MayEnd job result }
    ensures untouched { IsUntouched out.old out.new result }
    ensures reads { CountsReads (S.faults (source_of cursor.old).now) (S.faults (source_of cursor.new).now) result }
    ensures writes { CountsWrites (O.faults out.old) (O.faults out.new) result }
{
    run_file(alloc, keys, job, &[], cursor, out)
}
