ghost use Rattle.std.specs.Prelude.{◌≡◌, ℕ, ◌≢◌, ◌+◌, ◌≤◌, length};
ghost use Rattle.amf_graph.specs.declared.lack.Lack.{Lack};
ghost use Rattle.amf_commands.specs.Input.{most};
ghost use Rattle.amf_commands.specs.Run.{TakesInput, MayLack, CountsReads, CountsWrites, IsReading, IsUntouched, RunsOver};
ghost use Rattle.amf_commands.specs.Askable.{IsAskable};

use crate::command::Command;
use crate::output::output_of;
use crate::run_end::RunEnd;
use amf_io::{Sink, Source, write_whole};
use std::alloc::Global;
use std::hash::RandomState;

/// Reads the input of a command, and writes its output.
pub fn perform<I: Source, O: Sink>(
    alloc: Global,
    keys: Option<RandomState>,
    command: Command,
    input: &mut I,
    out: &mut O,
) -> Result<(), RunEnd>
    requires { IsAskable command }
    ensures no_usage { result ≢ Err RunEnd.Usage }
    ensures alone { (number : ℕ) (l : Lack) → result ≡ Err (RunEnd.NoForm number l) → MayLack command }
    ensures reading { IsReading command result }
    ensures untaken { (TakesInput command → ⊥) → input.new ≡ input.old }
    ensures tells { O.tells out.new → O.tells out.old }
    ensures runs { I.tells input.old → RunsOver I.Source O.Sink command input.old input.new out.old out.new result }
    ensures taken { I.tells input.old → length (I.left input.old) ≤ length (I.left input.new) + (most + 1) }
    ensures untouched { IsUntouched out.old out.new result }
    ensures unwritten { result ≡ Err RunEnd.NoMemory → out.new ≡ out.old }
    ensures no_front { result ≢ Err RunEnd.FrontFault }
    ensures reads { CountsReads (I.faults input.old) (I.faults input.new) result }
    ensures writes { CountsWrites (O.faults out.old) (O.faults out.new) result }
{
    let bytes = output_of(alloc, keys, command, input)?;
    match write_whole(out, &bytes) {
        Ok(()) => Ok(()),
        Err(_) => Err(RunEnd::WriteFault),
    }
}
