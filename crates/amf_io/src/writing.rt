//! Writing to a sink until all was taken.

ghost use Rattle.std.specs.Prelude.{◌≡◌};
ghost use Rattle.amf_io.specs.Outside.{HasCause};
ghost use Rattle.amf_io.specs.Written.{Writes};

use crate::{Failed, Sink};

/// Writes all the bytes, in as many pieces as the sink takes. After a failure a front of them was written.
pub fn write_all<O: Sink>(sink: &mut O, bytes: &[u8]) -> Result<(), Failed>
    ensures tells { O.tells sink.new → O.tells sink.old }
    ensures writes { O.tells sink.new → Writes (O.held sink.old) (O.held sink.new) bytes.now result }
    ensures cause { HasCause (O.faults sink.old) (O.faults sink.new) result }
{
    let mut rest = bytes;
    while !rest.is_empty() {
        let taken = sink.write(rest)?;
        rest = &rest[taken..];
    }
    Ok(())
}

/// Writes all the bytes, and has the sink hand them on. After a failure a front of them was written.
pub fn write_whole<O: Sink>(sink: &mut O, bytes: &[u8]) -> Result<(), Failed>
    ensures tells { O.tells sink.new → O.tells sink.old }
    ensures writes { O.tells sink.new → Writes (O.held sink.old) (O.held sink.new) bytes.now result }
    ensures cause { HasCause (O.faults sink.old) (O.faults sink.new) result }
{
    write_all(sink, bytes)?;
    sink.flush()
}
