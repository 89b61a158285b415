ghost use Rattle.std.specs.Prelude.{◌≡◌, ◌<◌, ◌^◌, ◌+◌, ◌↔◌, length, OnOk};
ghost use Rattle.amf_io.specs.Cursor.{place, bound, unread};
ghost use Rattle.amf_io.specs.InMemory.{nothing_left};
ghost use Rattle.amf_io.specs.ReadEnds.{GoesBy};
ghost use Rattle.rtmp_rechunk.specs.Pass.{Appended};
ghost use Rattle.rtmp_listing.specs.Listing.{ShowsValues};
ghost use Rattle.rtmp_listing.specs.Values.{AnswersOne, Lists};

use crate::lines::push_bad_line;
use amf_graph::{Builder, Rooted};
use amf_io::{Cursor, Empty, ReadEnd};
use amf_show::show;
use amf_wire::Memory;
use amf0_read::read0;
use amf0_spelling::Tables0;
use std::alloc::Global;
use std::hash::RandomState;

/// Appends the listing of each AMF 0 value that bytes are, with fresh tables for each; or of those before the first that is none,
/// and the line that says why. It gives up where there is no memory.
pub(crate) fn push_values(
    alloc: Global,
    keys: Option<RandomState>,
    bytes: &[u8],
    out: &mut Vec<u8>,
) -> Result<(), Memory>
    requires { length bytes.now < 2 ^ 24 }
    ensures { OnOk result (Appended (ShowsValues 0 bytes.now) out.old.items out.new.items) }
{
    if bytes.is_empty() {
        return Ok(());
    }
    let mut end = Empty;
    let mut cursor = Cursor::over_bytes(alloc, &mut end, bytes, bytes.len() as u32)?;
    match push_each(alloc, keys, &mut cursor, out) {
        Ok(()) => Ok(()),
        Err(ReadEnd::Refused(refusal)) => Ok(push_bad_line(refusal, out)?),
        // No read of bytes in memory fails.
        Err(ReadEnd::ReadFault) => unreachable!(),
        Err(ReadEnd::Memory) => Err(Memory),
    }
}

/// Appends the listing of each value up to the end.
fn push_each(
    alloc: Global,
    keys: Option<RandomState>,
    cursor: &mut Cursor<'_, Empty>,
    out: &mut Vec<u8>,
) -> Result<(), ReadEnd>
    requires end { place cursor.old + length (unread nothing_left cursor.old) ≡ bound cursor.old }
    requires few { bound cursor.old < 2 ^ 24 }
    ensures { Lists (place cursor.old) (unread nothing_left cursor.old) out.old.items out.new.items result }
{
    while !cursor.is_at_end() {
        let graph = read_one(alloc, keys, cursor)?;
        show(alloc, &graph, out)?;
    }
    Ok(())
}

/// The graph that the next bytes of a cursor spell, from empty tables.
fn read_one(
    alloc: Global,
    keys: Option<RandomState>,
    cursor: &mut Cursor<'_, Empty>,
) -> Result<Rooted, ReadEnd>
    requires { bound cursor.old < 2 ^ 24 }
    ensures goes { GoesBy (λ s. Unit {0}) nothing_left (λ s. 0) cursor.old cursor.new result }
    ensures answers { AnswersOne (unread nothing_left cursor.old) (unread nothing_left cursor.new) (place cursor.old) (place cursor.new)
        (bound cursor.old) result }
{
    // What is true of every cursor.
    let _start = cursor.at();
    let mut builder = Builder::keyed(alloc, keys)?;
    let mut tables = Tables0::new(alloc)?;
    let read = read0(alloc, cursor, &mut builder, &mut tables)?;
    Ok(builder.whole(read.value))
}
