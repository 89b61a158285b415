ghost use Rattle.std.specs.Prelude.{◌≡◌, ◌<◌, ◌^◌, [], length, IfOk, false, true};
ghost use Rattle.std.specs.Result.{IsErrOf};
ghost use Rattle.amf_graph.specs.declared.lack.Lack.{Lack};
ghost use Rattle.amf_graph.specs.Rooted.{content};
ghost use Rattle.amf_io.specs.InMemory.{taken};
ghost use Rattle.amf_wire.specs.Text.{IsText};
ghost use Rattle.amf3_spelling.specs.Lacks3.{IsLack3};
ghost use Rattle.amf_client.specs.Asking.{IsAsk, are_arguments};

use amf_client::{AskEnd, write_call_keyed};
use amf_graph::Rooted;
use amf_io::{Joined, MemoryLink, MemorySink, MemorySource};
use amf_wire::{Memory, Name};
use std::alloc::Global;
use std::hash::RandomState;

/// A link in memory on which nothing comes.
fn link_in_memory(alloc: Global) -> Result<MemoryLink, Memory>
    ensures { IfOk result (λ link. taken link.sink ≡ []) }
{
    let source = MemorySource::new(alloc, b"", 1, 0, &[])?;
    let sink = MemorySink::new(alloc, usize::MAX, &[])?;
    Ok(Joined { source, sink })
}

/// Writes a call to a link in memory, so that its bytes are known before anything is dialled.
pub(crate) fn request(
    alloc: Global,
    keys: Option<RandomState>,
    port: u16,
    target: &Name,
    args: &Rooted,
) -> Result<MemoryLink, AskEnd>
    requires text { IsText target.now }
    requires short { length target.now < 2 ^ 16 }
    ensures asks { IfOk result (λ link. IsAsk port target.now (content args.now) (taken link.sink)) }
    ensures arguments { IsErrOf result AskEnd.NotArgs → are_arguments (content args.now) ≡ false }
    ensures is_array { IfOk result (λ link. are_arguments (content args.now) ≡ true) }
    ensures lack { (l : Lack) → IsErrOf result (AskEnd.NoSpelling l) → (are_arguments (content args.now) ≡ true) × IsLack3 (content args.now) l.node l.kind }
{
    let mut link = link_in_memory(alloc)?;
    write_call_keyed(alloc, keys, &mut link, port, target, args)?;
    Ok(link)
}
