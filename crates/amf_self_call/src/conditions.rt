ghost use Rattle.std.specs.Prelude.{◌≡◌, ◌↔◌, IsTrue, IfOk, bytes_eq};
ghost use Rattle.amf_graph.specs.Rooted.{content};
ghost use Rattle.amf_answer_plan.specs.Packets.{null_uri};
ghost use Rattle.amf_self_call.specs.Rounds.{IsTarget, MayCall};

use crate::wires::{PORT, wire_of};
use amf_client::{AskEnd, write_call};
use amf_graph::Rooted;
use amf_wire::{Memory, Name, is_amf_text};
use std::alloc::Global;

/// Whether this is `null`, which names no operation.
fn is_null(target: &Name) -> bool
    ensures { result ≡ bytes_eq target.now null_uri }
{
    target.as_bytes() == b"null".as_slice()
}

/// Whether a call may have this target.
fn is_target(target: &Name) -> bool
    ensures { IsTrue result ↔ IsTarget target.now }
{
    if is_null(target) {
        return false;
    }
    if target.as_bytes().len() > 65_535 {
        return false;
    }
    is_amf_text(target.as_bytes())
}

/// Whether `round` may be called with these: the target is a text of at most 65,535 bytes other than `null`, and the arguments are an
/// array without names and have a canonical spelling.
pub fn may_call(alloc: Global, target: &Name, args: &Rooted) -> Result<bool, Memory>
    ensures { IfOk result (λ may. IsTrue may ↔ MayCall target.now (content args.now)) }
{
    if !is_target(target) {
        return Ok(false);
    }
    let mut wire = wire_of(alloc, &[])?;
    match write_call(alloc, &mut wire, PORT, target, args) {
        Ok(()) => Ok(true),
        Err(AskEnd::NotArgs) => Ok(false),
        Err(AskEnd::NoSpelling(_)) => Ok(false),
        Err(AskEnd::WriteFault | AskEnd::Memory) => Err(Memory),
    }
}
