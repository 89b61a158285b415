//! Writing in pieces of some size: many parts of an output are short, and each write of a real sink is a call of the system.

ghost use Rattle.std.specs.Prelude.{◌≡◌, [], OnOk};
ghost use Rattle.amf_media.specs.Written.{Puts, IsPutEnd, CountsPuts};

use crate::ending::MediaEnd;
use amf_io::{Sink, write_all};

/// How many bytes are gathered before they are written. As many are written at once without being gathered.
const MOST: usize = 65_536;

/// Puts bytes behind those that wait to be written, and writes what waits where it is much. It ends only with `WriteFault` and
/// `Memory`.
pub(crate) fn put<O: Sink>(
    waiting: &mut Vec<u8>,
    bytes: &[u8],
    sink: &mut O,
) -> Result<(), MediaEnd>
    ensures tells { O.tells sink.new → O.tells sink.old }
    ensures puts { O.tells sink.new
        → Puts (O.held sink.old) (O.held sink.new) waiting.old.items waiting.new.items bytes.now result }
    ensures ends { IsPutEnd result }
    ensures counts { CountsPuts (O.faults sink.old) (O.faults sink.new) result }
{
    if bytes.len() < MOST {
        waiting.extend_from_slice(bytes)?;
        return write_much(waiting, sink);
    }
    write_waiting(waiting, sink)?;
    match write_all(sink, bytes) {
        Ok(()) => Ok(()),
        Err(_) => Err(MediaEnd::WriteFault),
    }
}

/// Writes what waits, where it is much.
fn write_much<O: Sink>(waiting: &mut Vec<u8>, sink: &mut O) -> Result<(), MediaEnd>
    ensures tells { O.tells sink.new → O.tells sink.old }
    ensures puts { O.tells sink.new → Puts (O.held sink.old) (O.held sink.new) waiting.old.items waiting.new.items [] result }
    ensures ends { IsPutEnd result }
    ensures counts { CountsPuts (O.faults sink.old) (O.faults sink.new) result }
{
    if waiting.len() < MOST {
        return Ok(());
    }
    write_waiting(waiting, sink)
}

/// Writes what waits.
fn write_waiting<O: Sink>(waiting: &mut Vec<u8>, sink: &mut O) -> Result<(), MediaEnd>
    ensures tells { O.tells sink.new → O.tells sink.old }
    ensures puts { O.tells sink.new → Puts (O.held sink.old) (O.held sink.new) waiting.old.items waiting.new.items [] result }
    ensures none { OnOk result (waiting.new.items ≡ []) }
    ensures ends { IsPutEnd result }
    ensures counts { CountsPuts (O.faults sink.old) (O.faults sink.new) result }
{
    match write_all(sink, waiting) {
        Ok(()) => {
            waiting.clear();
            Ok(())
        }
        Err(_) => Err(MediaEnd::WriteFault),
    }
}
