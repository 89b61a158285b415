//! Writing in pieces of some size: most messages are short, and each write of a real sink is a call of the system.

ghost use Rattle.std.specs.Prelude.{OnOk, OnErr};
ghost use Rattle.amf_io.specs.Outside.{HasCause};
ghost use Rattle.amf_io.specs.Written.{WritesFront};
ghost use Rattle.rtmp_rechunk.specs.Written.{Put};

use amf_io::{Failed, Sink, write_all};

/// How many bytes wait before they are written.
const MUCH: usize = 65_536;

/// Writes what waits, where it is much.
pub(crate) fn write_much<O: Sink>(sink: &mut O, waiting: &mut Vec<u8>) -> Result<(), Failed>
    ensures tells { O.tells sink.new → O.tells sink.old }
    ensures kept { O.tells sink.new → OnOk result (Put (O.held sink.old) (O.held sink.new) waiting.old.items waiting.new.items) }
    ensures front { O.tells sink.new → OnErr result (WritesFront (O.held sink.old) (O.held sink.new) waiting.old.items) }
    ensures cause { HasCause (O.faults sink.old) (O.faults sink.new) result }
{
    if waiting.len() < MUCH {
        return Ok(());
    }
    write_all(sink, waiting)?;
    waiting.clear();
    Ok(())
}
