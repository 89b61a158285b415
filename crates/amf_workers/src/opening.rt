ghost use Rattle.std.specs.Prelude.{◌≡◌, ◌∷◌, [], ◌^◌, codes, IfOk};
ghost use Rattle.amf_workers.specs.Together.{destinations};

use amf_desk::{Desk, Pass};
use amf_wire::{Memory, Name};
use std::alloc::Global;
use std::hash::RandomState;

/// The destinations of the gateway.
fn destinations(alloc: Global) -> Result<Vec<Name>, Memory>
    ensures { IfOk result (λ names. names.items ≡ destinations) }
{
    let mut names = Vec::new(alloc);
    names.push(Name::of_bytes(alloc, b"chat")?)?;
    names.push(Name::of_bytes(alloc, b"news")?)?;
    Ok(names)
}

/// A desk with these destinations, and its first pass. Without keys topics are looked up by hashes that anyone can foresee.
pub(crate) fn open_desk(alloc: Global, keys: Option<RandomState>) -> Result<(Desk, Pass), Memory>
    ensures { IfOk result (λ r. r.1 ≡ record { desk = r.0; destinations = destinations; number = 0; seen = []; budget = 2 ^ 62; splits = 0 }) }
{
    let names = destinations(alloc)?;
    match keys {
        Some(keys) => Desk::open_keyed(alloc, names, keys),
        None => Desk::open(alloc, names),
    }
}
