//! Items of vectors.

ghost use Rattle.std.specs.Prelude.{◌≡◌, map, IfOk};

use amf_wire::{Memory, Pattern};
use std::alloc::Global;

/// Doubles by their bits.
pub(crate) fn patterns(alloc: Global, items: &[u64]) -> Result<Vec<Pattern>, Memory>
    ensures { IfOk result (λ patterns. map (λ p. p.0) patterns.items ≡ items.now) }
{
    let mut patterns = Vec::new(alloc);
    for item in items {
        patterns.push(Pattern(*item))?;
    }
    Ok(patterns)
}
