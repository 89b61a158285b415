ghost use Rattle.std.specs.Prelude.{◌≡◌, codes, IfOk};
ghost use Rattle.amf_graph.specs.Rooted.{content};
ghost use Rattle.amf_show.specs.Listing.{AppendsListing};
ghost use Rattle.flv_meta.specs.FileAnswers.{IsStoredTag};
ghost use Rattle.flv_meta.specs.declared.flv_job.FlvJob.TheVariants.{Show};
ghost use Rattle.amf_media.specs.Ends.{end_at_value};
ghost use Rattle.amf_media.specs.FlvSteps.{PutsStoredTag, PutsValue};
ghost use Rattle.amf_media.specs.Written.{CountsPuts};

use crate::ending::MediaEnd;
use crate::gather::put;
use amf_graph::Rooted;
use amf_io::Sink;
use amf_show::show;
use amf_wire::Memory;
use flv_meta::{MetaEnd, Tag, metadata_keyed};
use std::alloc::Global;
use std::hash::RandomState;

/// The line `meta` and the listing of a value.
fn lines_of(alloc: Global, value: &Rooted) -> Result<Vec<u8>, Memory>
    ensures { IfOk result (λ lines. AppendsListing (content value.now) (codes "meta\n") lines.items) }
{
    let mut lines = b"meta\n".to_vec(alloc)?;
    show(alloc, value, &mut lines)?;
    Ok(lines)
}

/// Puts the lines of the value of a metadata tag.
fn put_lines<O: Sink>(
    alloc: Global,
    value: &Rooted,
    out: &mut O,
    waiting: &mut Vec<u8>,
) -> Result<(), MediaEnd>
    ensures tells { O.tells out.new → O.tells out.old }
    ensures puts { PutsValue O.Sink (content value.now) out.old out.new waiting.old.items waiting.new.items result }
    ensures counts { CountsPuts (O.faults out.old) (O.faults out.new) result }
{
    let lines = lines_of(alloc, value)?;
    put(waiting, &lines, out)
}

/// The end at a value that is refused, or for which there is no memory.
fn end_at_value(end: MetaEnd) -> MediaEnd
    ensures { result ≡ end_at_value end }
{
    match end {
        MetaEnd::Refused(refusal) => MediaEnd::Refused(refusal),
        MetaEnd::Memory => MediaEnd::Memory,
    }
}

/// Puts the lines of a tag's metadata: none of another tag.
pub(crate) fn show_tag<O: Sink>(
    alloc: Global,
    keys: Option<RandomState>,
    tag: &Tag,
    out: &mut O,
    waiting: &mut Vec<u8>,
) -> Result<(), MediaEnd>
    requires { IsStoredTag tag.now }
    ensures tells { O.tells out.new → O.tells out.old }
    ensures puts { PutsStoredTag O.Sink Show tag.now out.old out.new waiting.old.items waiting.new.items result }
    ensures counts { CountsPuts (O.faults out.old) (O.faults out.new) result }
{
    match metadata_keyed(alloc, keys, tag) {
        Ok(Some(value)) => put_lines(alloc, &value, out, waiting),
        Ok(None) => Ok(()),
        Err(end) => Err(end_at_value(end)),
    }
}
