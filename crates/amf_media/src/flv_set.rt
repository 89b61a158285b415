//! The value that is set, which stands before the file.

ghost use Rattle.std.specs.Prelude.{◌≡◌, ◌+◌, ◌≤◌, length};
ghost use Rattle.amf_io.specs.Cursor.{source_of, place, bound, unread};
ghost use Rattle.amf_io.specs.ReadEnds.{Goes};
ghost use Rattle.amf_io.specs.Stretch.{AnswersOf, between};
ghost use Rattle.amf_wire.specs.Style.{free};
ghost use Rattle.amf_graph.specs.Rooted.{content};
ghost use Rattle.amf0_spelling.specs.Values0.{IsValue0};
ghost use Rattle.amf0_spelling.specs.Spells0.{IsSpelling0};
ghost use Rattle.amf_media.specs.FlvRuns.{most, IsUntouched, CountsReads};
ghost use Rattle.amf_media.specs.FlvSteps.{Moves, ended, SetsWhole};
ghost use Rattle.amf_media.specs.FlvValues.{most_of_value};
ghost use Rattle.amf_media.specs.SetSteps.{MakesStart, IsStartEnd};
ghost use Rattle.amf_media.specs.Written.{CountsWrites};

use crate::ending::MediaEnd;
use crate::flv_file::run_file;
use amf_graph::{Builder, Rooted};
use amf_io::{Cursor, ReadEnd, Sink, Source};
use amf0_read::read0;
use amf0_spelling::Tables0;
use flv_meta::{FlvJob, MetaTagEnd, meta_tag};
use std::alloc::Global;
use std::hash::RandomState;

/// How many bytes an input may have.
pub(crate) const MOST: u32 = 0xFFFF_FFFF;

/// The first bytes, in which each field of the value has to be whole.
pub(crate) const MOST_OF_VALUE: u32 = 67_108_864;

/// The graph that the next bytes of a cursor spell in AMF 0, from empty tables.
fn read_value<S: Source>(
    alloc: Global,
    keys: Option<RandomState>,
    cursor: &mut Cursor<'_, S>,
) -> Result<Rooted, ReadEnd>
    requires { bound cursor.old ≡ most_of_value }
    ensures goes { Goes S.Source cursor.old cursor.new result }
    ensures answers { AnswersOf (λ g fs. IsSpelling0 free (content g) fs) IsValue0 (between S.tells S.left cursor.old cursor.new) result }
{
    let mut builder = Builder::keyed(alloc, keys)?;
    let mut tables = Tables0::new(alloc)?;
    let read = read0(alloc, cursor, &mut builder, &mut tables)?;
    Ok(builder.whole(read.value))
}

/// The metadata tag of the value that the next bytes spell.
fn read_start<S: Source>(
    alloc: Global,
    keys: Option<RandomState>,
    cursor: &mut Cursor<'_, S>,
) -> Result<Vec<u8>, MediaEnd>
    requires at_start { place cursor.old ≡ 0 }
    requires limit { bound cursor.old ≡ most_of_value }
    ensures moves { Moves S.tells S.left S.faults cursor.old cursor.new (ended result) }
    ensures starts { S.tells (source_of cursor.old).now
        → MakesStart (λ v. v.items) (unread S.left cursor.old) (unread S.left cursor.new) (place cursor.new) result }
    ensures ends { IsStartEnd result }
{
    let value = read_value(alloc, keys, cursor)?;
    let mut start = Vec::new(alloc);
    match meta_tag(alloc, &value, &mut start) {
        Ok(()) => Ok(start),
        Err(MetaTagEnd::NoSpelling(lack)) => Err(MediaEnd::NoForm(lack)),
        Err(MetaTagEnd::LongData) => Err(MediaEnd::LongData),
        Err(MetaTagEnd::Memory) => Err(MediaEnd::Memory),
    }
}

/// Reads the value, which is judged first, and then writes the file with it as its only metadata.
pub(crate) fn set_metadata<S: Source, O: Sink>(
    alloc: Global,
    keys: Option<RandomState>,
    cursor: &mut Cursor<'_, S>,
    out: &mut O,
) -> MediaEnd
    requires at_start { place cursor.old ≡ 0 }
    requires limit { bound cursor.old ≡ most_of_value }
    ensures same_reference { (source_of cursor.new).ghost_name ≡ (source_of cursor.old).ghost_name }
    ensures tells { O.tells out.new → O.tells out.old }
    ensures runs { SetsWhole S.Source O.Sink cursor.old cursor.new out.old out.new result }
    ensures untouched { IsUntouched out.old out.new result }
    ensures taken { S.tells (source_of cursor.old).now
        → length (unread S.left cursor.old) ≤ length (S.left (source_of cursor.new).now) + (most + 1) }
    ensures reads { CountsReads (S.faults (source_of cursor.old).now) (S.faults (source_of cursor.new).now) result }
    ensures writes { CountsWrites (O.faults out.old) (O.faults out.new) result }
{
    let start = match read_start(alloc, keys, cursor) {
        Ok(start) => start,
        Err(end) => return end,
    };
    cursor.raise(MOST);
    run_file(alloc, keys, FlvJob::Set, &start, cursor, out)
}
