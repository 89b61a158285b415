ghost use Rattle.std.specs.Prelude.{◌≡◌, ◌+◌, ◌≤◌, length, true, IfOk};
ghost use Rattle.amf_graph.specs.Isomorphic.{Isomorphic};
ghost use Rattle.amf_graph.specs.Rooted.{content};
ghost use Rattle.amf_commands.specs.declared.command.Command.TheVariants.{Canon};
ghost use Rattle.amf_commands.specs.Commands.{goes_to};
ghost use Rattle.amf_commands.specs.Input.{most, one, two};
ghost use Rattle.amf_commands.specs.Run.{TakesInput, IsConverted, IsUnconverted, IsChecked, IsShown, IsJson, IsCompared};
ghost use Rattle.amf_commands.specs.Run.{CountsReads, IsReadEnd, IsOutputEnd, Says};
ghost use Rattle.amf_commands.specs.ReadContent.{ReadsSource, ReadsAll, OutputOf};
ghost use Rattle.amf_commands.specs.Askable.{IsAskable};

use crate::command::Command;
use crate::content::{counted, listed, told};
use crate::format::Format;
use crate::lines::{count_line, version_line};
use crate::making::measurement;
use crate::reading::{read_graphs, read_in_format};
use crate::run_end::RunEnd;
use crate::spelling::{SpellEnd, spelled};
use amf_graph::Rooted;
use amf_io::Source;
use amf_iso::isomorphic;
use amf_json::Layout;
use amf_wire::Memory;
use std::alloc::Global;
use std::hash::RandomState;

/// The output of a command.
pub fn output_of<I: Source>(
    alloc: Global,
    keys: Option<RandomState>,
    command: Command,
    input: &mut I,
) -> Result<Vec<u8>, RunEnd>
    requires { IsAskable command }
    ensures reads { OutputOf I.Source command input.old input.new result }
    ensures taken { I.tells input.old → length (I.left input.old) ≤ length (I.left input.new) + (most + 1) }
    ensures counts { CountsReads (I.faults input.old) (I.faults input.new) result }
    ensures ends { IsOutputEnd command result }
    ensures untaken { (TakesInput command → ⊥) → input.new ≡ input.old }
{
    match command {
        Command::Canon { from, to } => converted(alloc, keys, from, to, input),
        Command::Check { from } => checked(alloc, keys, from, input),
        Command::Show { from } => shown(alloc, keys, from, input),
        Command::Json { from, layout } => written_as_json(alloc, keys, from, layout, input),
        Command::Same => comparison(alloc, keys, input),
        Command::Gen { seed, size } => Ok(measurement(alloc, keys, seed, size)?),
        Command::Version => Ok(version_line(alloc)?),
    }
}

/// The canonical spelling, in one format, of what the input is in another.
fn converted<I: Source>(
    alloc: Global,
    keys: Option<RandomState>,
    from: Format,
    to: Format,
    input: &mut I,
) -> Result<Vec<u8>, RunEnd>
    requires { goes_to from to ≡ true }
    ensures reads { ReadsSource I.Source (one from) (IsUnconverted from to) (λ whole bytes. IsConverted from to whole bytes.items) input.old input.new result }
    ensures taken { I.tells input.old → length (I.left input.old) ≤ length (I.left input.new) + (most + 1) }
    ensures counts { CountsReads (I.faults input.old) (I.faults input.new) result }
    ensures ends { IsOutputEnd (Canon from to) result }
{
    let content = match read_in_format(alloc, keys, from, input) {
        Ok(content) => content,
        Err(end) => return Err(end),
    };
    match spelled(alloc, keys, to, content) {
        Ok(bytes) => Ok(bytes),
        Err(SpellEnd::NoForm { value, lack }) => Err(RunEnd::NoForm { value, lack }),
        Err(SpellEnd::Memory) => Err(RunEnd::NoMemory),
    }
}

/// The line that says whether the two values that the input is are the same graph.
fn comparison<I: Source>(
    alloc: Global,
    keys: Option<RandomState>,
    input: &mut I,
) -> Result<Vec<u8>, RunEnd>
    ensures reads { ReadsAll I.Source two (λ whole line. IsCompared whole line.items) input.old input.new result }
    ensures taken { I.tells input.old → length (I.left input.old) ≤ length (I.left input.new) + (most + 1) }
    ensures counts { CountsReads (I.faults input.old) (I.faults input.new) result }
    ensures ends { IsReadEnd result }
{
    let (left, right) = read_graphs(alloc, keys, input)?;
    Ok(compared(alloc, left, right)?)
}

/// The line that says whether two graphs are the same, which are let go then.
fn compared(alloc: Global, left: Rooted, right: Rooted) -> Result<Vec<u8>, Memory>
    ensures { IfOk result (λ line. Says (Isomorphic (content left) (content right)) line.items) }
{
    let is_same = isomorphic(alloc, &left, &right)?;
    verdict_line(alloc, is_same)
}

/// The line that says whether two graphs are the same.
fn verdict_line(alloc: Global, is_same: bool) -> Result<Vec<u8>, Memory>
    ensures { IfOk result (λ line. Says (is_same ≡ true) line.items) }
{
    let line = if is_same {
        b"same\n".as_slice()
    } else {
        b"different\n"
    };
    Ok(line.to_vec(alloc)?)
}

/// The line that says how many nodes the input has.
fn checked<I: Source>(
    alloc: Global,
    keys: Option<RandomState>,
    from: Format,
    input: &mut I,
) -> Result<Vec<u8>, RunEnd>
    ensures reads { ReadsAll I.Source (one from) (λ whole line. IsChecked from whole line.items) input.old input.new result }
    ensures taken { I.tells input.old → length (I.left input.old) ≤ length (I.left input.new) + (most + 1) }
    ensures counts { CountsReads (I.faults input.old) (I.faults input.new) result }
    ensures ends { IsReadEnd result }
{
    let content = read_in_format(alloc, keys, from, input)?;
    let nodes = counted(alloc, content)?;
    Ok(count_line(alloc, nodes)?)
}

/// The listing of what the input is.
fn shown<I: Source>(
    alloc: Global,
    keys: Option<RandomState>,
    from: Format,
    input: &mut I,
) -> Result<Vec<u8>, RunEnd>
    ensures reads { ReadsAll I.Source (one from) (λ whole bytes. IsShown from whole bytes.items) input.old input.new result }
    ensures taken { I.tells input.old → length (I.left input.old) ≤ length (I.left input.new) + (most + 1) }
    ensures counts { CountsReads (I.faults input.old) (I.faults input.new) result }
    ensures ends { IsReadEnd result }
{
    let content = read_in_format(alloc, keys, from, input)?;
    Ok(listed(alloc, content)?)
}

/// The JSON text of what the input is.
fn written_as_json<I: Source>(
    alloc: Global,
    keys: Option<RandomState>,
    from: Format,
    layout: Layout,
    input: &mut I,
) -> Result<Vec<u8>, RunEnd>
    ensures reads { ReadsAll I.Source (one from) (λ whole bytes. IsJson from layout whole bytes.items) input.old input.new result }
    ensures taken { I.tells input.old → length (I.left input.old) ≤ length (I.left input.new) + (most + 1) }
    ensures counts { CountsReads (I.faults input.old) (I.faults input.new) result }
    ensures ends { IsReadEnd result }
{
    let content = read_in_format(alloc, keys, from, input)?;
    Ok(told(alloc, layout, from, content)?)
}
