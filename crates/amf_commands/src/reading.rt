ghost use Rattle.std.specs.Prelude.{◌≡◌, ◌≢◌, ◌+◌, ◌≤◌, List, IfOk, length};
ghost use Rattle.amf_io.specs.Cursor.{source_of, place, bound, unread};
ghost use Rattle.amf_io.specs.ReadEnds.{Goes};
ghost use Rattle.amf_io.specs.Field.{Field};
ghost use Rattle.amf_wire.specs.Style.{free};
ghost use Rattle.amf_graph.specs.Rooted.{content};
ghost use Rattle.amf_commands.specs.declared.content.Content.TheVariants as kept;
ghost use Rattle.amf_commands.specs.declared.format.Format.TheVariants as form;
ghost use Rattle.amf_commands.specs.Content.{content_of, value as of_graph};
ghost use Rattle.amf_commands.specs.Formats.{IsSpelling};
ghost use Rattle.amf_commands.specs.Input.{most, one, two};
ghost use Rattle.amf_commands.specs.ReadContent.{AnswersAt, AnswersEnd, ReadsAll, ReadsCursor, mapped};
ghost use Rattle.amf_commands.specs.Run.{IsInputOf, ArePairIn, CountsReads, IsReadEnd};

use crate::content::Content;
use crate::format::Format;
use crate::run_end::RunEnd;
use amf_graph::{Builder, Rooted};
use amf_io::{Cursor, ReadEnd, Reason, Refusal, Source, Window};
use amf_packet::{Packet, read_packet_keyed};
use amf_sol::read_sol_keyed;
use amf_tables::Tables3;
use amf0_read::read0;
use amf0_spelling::Tables0;
use amf3_read::read3;
use std::alloc::Global;
use std::hash::RandomState;

/// The most bytes of an input: 64 MiB.
pub const LIMIT: u32 = 67_108_864;

/// The value, the packet or the file that the input spells in a format. Texts are looked up by the keys.
pub fn read_in_format<I: Source>(
    alloc: Global,
    keys: Option<RandomState>,
    from: Format,
    input: &mut I,
) -> Result<Content, RunEnd>
    ensures reads { ReadsAll I.Source (one from) (λ whole c. IsInputOf from (content_of c) whole) input.old input.new result }
    ensures spelled { IfOk result (λ c. (fs : List Field) × IsSpelling from free (content_of c) fs) }
    ensures taken { I.tells input.old → length (I.left input.old) ≤ length (I.left input.new) + (most + 1) }
    ensures counts { CountsReads (I.faults input.old) (I.faults input.new) result }
    ensures ends { IsReadEnd result }
{
    let window = Window::new(alloc, LIMIT)?;
    let mut cursor = Cursor::over(input, window);
    read_whole(alloc, keys, from, &mut cursor)
}

/// The two graphs that the input spells, one after the other.
pub fn read_graphs<I: Source>(
    alloc: Global,
    keys: Option<RandomState>,
    input: &mut I,
) -> Result<(Rooted, Rooted), RunEnd>
    ensures reads { ReadsAll I.Source two (λ whole p. ArePairIn (content p.0) (content p.1) whole) input.old input.new result }
    ensures taken { I.tells input.old → length (I.left input.old) ≤ length (I.left input.new) + (most + 1) }
    ensures counts { CountsReads (I.faults input.old) (I.faults input.new) result }
    ensures ends { IsReadEnd result }
{
    let window = Window::new(alloc, LIMIT)?;
    let mut cursor = Cursor::over(input, window);
    read_pair(alloc, keys, &mut cursor)
}

/// The value, the packet or the file that all the bytes of a cursor spell in a format.
fn read_whole<S: Source>(
    alloc: Global,
    keys: Option<RandomState>,
    from: Format,
    cursor: &mut Cursor<'_, S>,
) -> Result<Content, RunEnd>
    requires at_start { place cursor.old ≡ 0 }
    requires limit { bound cursor.old ≡ most }
    ensures same_reference { (source_of cursor.new).ghost_name ≡ (source_of cursor.old).ghost_name }
    ensures reads { ReadsCursor S.Source (one from) (λ whole c. IsInputOf from (content_of c) whole) cursor.old cursor.new result }
    ensures spelled { IfOk result (λ c. (fs : List Field) × IsSpelling from free (content_of c) fs) }
    ensures taken { S.tells (source_of cursor.old).now → length (unread S.left cursor.old) ≤ length (S.left (source_of cursor.new).now) + (most + 1) }
    ensures counts { CountsReads (S.faults (source_of cursor.old).now) (S.faults (source_of cursor.new).now) result }
    ensures ends { IsReadEnd result }
{
    match from {
        Format::Sol => read_file(alloc, keys, cursor),
        _ => read_ended(alloc, keys, from, cursor),
    }
}

/// The file that all the bytes of a cursor spell: nothing can follow it.
fn read_file<S: Source>(
    alloc: Global,
    keys: Option<RandomState>,
    cursor: &mut Cursor<'_, S>,
) -> Result<Content, RunEnd>
    requires at_start { place cursor.old ≡ 0 }
    requires limit { bound cursor.old ≡ most }
    ensures same_reference { (source_of cursor.new).ghost_name ≡ (source_of cursor.old).ghost_name }
    ensures reads { ReadsCursor S.Source (one form.Sol) (λ whole c. IsInputOf form.Sol (content_of c) whole) cursor.old cursor.new result }
    ensures spelled { IfOk result (λ c. (fs : List Field) × IsSpelling form.Sol free (content_of c) fs) }
    ensures taken { S.tells (source_of cursor.old).now → length (unread S.left cursor.old) ≤ length (S.left (source_of cursor.new).now) + (most + 1) }
    ensures counts { CountsReads (S.faults (source_of cursor.old).now) (S.faults (source_of cursor.new).now) result }
    ensures ends { IsReadEnd result }
{
    let file = read_sol_keyed(alloc, keys, cursor)?;
    Ok(Content::File(file))
}

/// The value or the packet that all the bytes of a cursor spell in a format.
fn read_ended<S: Source>(
    alloc: Global,
    keys: Option<RandomState>,
    from: Format,
    cursor: &mut Cursor<'_, S>,
) -> Result<Content, RunEnd>
    requires ended { from ≢ form.Sol }
    requires at_start { place cursor.old ≡ 0 }
    requires limit { bound cursor.old ≡ most }
    ensures same_reference { (source_of cursor.new).ghost_name ≡ (source_of cursor.old).ghost_name }
    ensures reads { ReadsCursor S.Source (one from) (λ whole c. IsInputOf from (content_of c) whole) cursor.old cursor.new result }
    ensures spelled { IfOk result (λ c. (fs : List Field) × IsSpelling from free (content_of c) fs) }
    ensures taken { S.tells (source_of cursor.old).now → length (unread S.left cursor.old) ≤ length (S.left (source_of cursor.new).now) + (most + 1) }
    ensures counts { CountsReads (S.faults (source_of cursor.old).now) (S.faults (source_of cursor.new).now) result }
    ensures ends { IsReadEnd result }
{
    let content = read_one(alloc, keys, from, cursor)?;
    expect_end(cursor)?;
    Ok(content)
}

/// The two graphs that all the bytes of a cursor spell.
fn read_pair<S: Source>(
    alloc: Global,
    keys: Option<RandomState>,
    cursor: &mut Cursor<'_, S>,
) -> Result<(Rooted, Rooted), RunEnd>
    requires at_start { place cursor.old ≡ 0 }
    requires limit { bound cursor.old ≡ most }
    ensures same_reference { (source_of cursor.new).ghost_name ≡ (source_of cursor.old).ghost_name }
    ensures reads { ReadsCursor S.Source two (λ whole p. ArePairIn (content p.0) (content p.1) whole) cursor.old cursor.new result }
    ensures taken { S.tells (source_of cursor.old).now → length (unread S.left cursor.old) ≤ length (S.left (source_of cursor.new).now) + (most + 1) }
    ensures counts { CountsReads (S.faults (source_of cursor.old).now) (S.faults (source_of cursor.new).now) result }
    ensures ends { IsReadEnd result }
{
    let left = read_one3(alloc, keys, cursor)?;
    let right = read_one3(alloc, keys, cursor)?;
    expect_end(cursor)?;
    Ok((left, right))
}

/// The value or the packet that the next bytes of a cursor spell in a format, from empty tables.
fn read_one<S: Source>(
    alloc: Global,
    keys: Option<RandomState>,
    from: Format,
    cursor: &mut Cursor<'_, S>,
) -> Result<Content, ReadEnd>
    requires ended { from ≢ form.Sol }
    requires limit { bound cursor.old ≡ most }
    ensures goes { Goes S.Source cursor.old cursor.new result }
    ensures answers { AnswersAt S.Source content_of from cursor.old cursor.new result }
{
    match from {
        Format::Amf3 => valued(read_one3(alloc, keys, cursor)),
        Format::Amf0 => valued(read_one0(alloc, keys, cursor)),
        Format::Packet => packeted(read_packet_keyed(alloc, keys, cursor)),
        Format::Sol => unreachable!(),
    }
}

/// The value that was read.
fn valued(read: Result<Rooted, ReadEnd>) -> Result<Content, ReadEnd>
    ensures { result ≡ mapped (λ g. kept.Value g) read }
{
    match read {
        Ok(graph) => Ok(Content::Value(graph)),
        Err(end) => Err(end),
    }
}

/// The packet that was read.
fn packeted(read: Result<Packet, ReadEnd>) -> Result<Content, ReadEnd>
    ensures { result ≡ mapped (λ p. kept.Packet p) read }
{
    match read {
        Ok(packet) => Ok(Content::Packet(packet)),
        Err(end) => Err(end),
    }
}

/// The graph that the next bytes of a cursor spell in AMF 0, from empty tables.
fn read_one0<S: Source>(
    alloc: Global,
    keys: Option<RandomState>,
    cursor: &mut Cursor<'_, S>,
) -> Result<Rooted, ReadEnd>
    requires limit { bound cursor.old ≡ most }
    ensures goes { Goes S.Source cursor.old cursor.new result }
    ensures answers { AnswersAt S.Source (λ g. of_graph (content g)) form.Amf0 cursor.old cursor.new result }
{
    let mut builder = Builder::keyed(alloc, keys)?;
    let mut tables = Tables0::new(alloc)?;
    let read = read0(alloc, cursor, &mut builder, &mut tables)?;
    Ok(builder.whole(read.value))
}

/// The graph that the next bytes of a cursor spell in AMF 3, from empty tables.
fn read_one3<S: Source>(
    alloc: Global,
    keys: Option<RandomState>,
    cursor: &mut Cursor<'_, S>,
) -> Result<Rooted, ReadEnd>
    requires limit { bound cursor.old ≡ most }
    ensures goes { Goes S.Source cursor.old cursor.new result }
    ensures answers { AnswersAt S.Source (λ g. of_graph (content g)) form.Amf3 cursor.old cursor.new result }
{
    let mut builder = Builder::keyed(alloc, keys)?;
    let mut tables = Tables3::new(alloc)?;
    let root = read3(alloc, cursor, &mut builder, &mut tables)?;
    Ok(builder.whole(root))
}

/// Refuses bytes that follow a whole input.
fn expect_end<S: Source>(cursor: &mut Cursor<'_, S>) -> Result<(), ReadEnd>
    requires within { place cursor.old ≤ bound cursor.old }
    ensures goes { Goes S.Source cursor.old cursor.new result }
    ensures answers { S.tells (source_of cursor.old).now → AnswersEnd (unread S.left cursor.old) (unread S.left cursor.new) (place cursor.old) result }
{
    match cursor.at_end() {
        Ok(true) => Ok(()),
        Ok(false) => Err(ReadEnd::Refused(Refusal {
            reason: Reason::Trailing,
            at: cursor.at(),
        })),
        Err(_) => Err(ReadEnd::ReadFault),
    }
}
