//! Links in memory.

ghost use Rattle.std.specs.Prelude.{◌≡◌, [], IfOk};
ghost use Rattle.amf_io.specs.InMemory.{faultless_left, taken};

use amf_io::{FaultlessSource, Joined, MemorySink};
use amf_wire::Memory;
use std::alloc::Global;

/// The port that the calls are for.
pub(crate) const PORT: u16 = 80;

/// A link in memory: no read of it fails, and a write only for want of memory.
pub(crate) type Wire = Joined<FaultlessSource, MemorySink>;

/// A link that gives these bytes.
pub(crate) fn wire_of(alloc: Global, bytes: &[u8]) -> Result<Wire, Memory>
    ensures left { IfOk result (λ l. faultless_left l.source ≡ bytes.now) }
    ensures held { IfOk result (λ l. taken l.sink ≡ []) }
{
    Ok(Joined {
        source: FaultlessSource::new(alloc, bytes, usize::MAX, 0)?,
        sink: MemorySink::new(alloc, usize::MAX, &[])?,
    })
}
