ghost use Rattle.std.specs.Prelude.{◌≡◌, ◌+◌, ◌≤◌, false, length};
ghost use Rattle.amf_graph.specs.Reached.{IsNamed};
ghost use Rattle.amf_graph.specs.Rooted.{content};
ghost use Rattle.amf_dial_and_call.specs.Called.{HasNames};
ghost use Rattle.amf_commands.specs.declared.format.Format.TheVariants.{Amf3};
ghost use Rattle.amf_commands.specs.Askable.{IsCallable};
ghost use Rattle.amf_commands.specs.Content.{value};
ghost use Rattle.amf_commands.specs.Input.{most, one};
ghost use Rattle.amf_commands.specs.Run.{IsInputOf, CountsReads, IsReadEnd};
ghost use Rattle.amf_commands.specs.ReadContent.{ReadsAll};
ghost use Rattle.amf_cli.specs.CallEnds.{AnswerEnds, CallEnds};
ghost use Rattle.amf_cli.specs.CallSteps.{CallCounts, WritesFor};

use crate::telling::{tell, tell_bad_reply, tell_fault, tell_link_fault};
use amf_commands::{CallOptions, Content, Format, RunEnd, end_with, read_in_format, spell3};
use amf_dial_and_call::{CallAnswer, call_keyed};
use amf_graph::{Rooted, WriteEnd};
use amf_io::{Dial, Sink, Source, write_whole};
use std::alloc::Global;
use std::hash::RandomState;

/// Reads the arguments, makes the call and writes what it came to, and gives the status of the program.
pub fn run_call<I: Source, O: Sink, E: Sink, D: Dial>(
    alloc: Global,
    keys: Option<RandomState>,
    options: &CallOptions,
    input: &mut I,
    out: &mut O,
    err: &mut E,
    dial: &mut D,
) -> u8
    requires callable { IsCallable options.now }
    requires none_out { D.is_out dial.old ≡ false }
    ensures none_out { D.is_out dial.new ≡ false }
    ensures ends { CallEnds I.Source O.Sink E.Sink D.Dial D.Link.Link options.now result input.old input.new out.old out.new err.old err.new dial.old dial.new }
    ensures counts { CallCounts result (I.faults input.old) (I.faults input.new) (O.faults out.old) (O.faults out.new) (E.faults err.old) (E.faults err.new) }
    ensures taken { I.tells input.old → length (I.left input.old) ≤ length (I.left input.new) + (most + 1) }
{
    let args = match arguments(alloc, keys, input) {
        Ok(args) => args,
        Err(end) => return end_with(end, err),
    };
    let answer = call_keyed(alloc, keys, dial, options.port, &options.target, &args);
    tell_answer(alloc, keys, answer, out, err)
}

/// The graph that the input spells in AMF 3.
fn arguments<I: Source>(
    alloc: Global,
    keys: Option<RandomState>,
    input: &mut I,
) -> Result<Rooted, RunEnd>
    ensures reads { ReadsAll I.Source (one Amf3) (λ whole g. IsInputOf Amf3 (value (content g)) whole) input.old input.new result }
    ensures taken { I.tells input.old → length (I.left input.old) ≤ length (I.left input.new) + (most + 1) }
    ensures counts { CountsReads (I.faults input.old) (I.faults input.new) result }
    ensures ends { IsReadEnd result }
{
    match read_in_format(alloc, keys, Format::Amf3, input) {
        Ok(Content::Value(graph)) => Ok(graph),
        Ok(Content::Packet(_)) => unreachable!(),
        Ok(Content::File(_)) => unreachable!(),
        Err(end) => Err(end),
    }
}

/// Writes what a call came to, and gives the status of the program.
fn tell_answer<O: Sink, E: Sink>(
    alloc: Global,
    keys: Option<RandomState>,
    answer: CallAnswer,
    out: &mut O,
    err: &mut E,
) -> u8
    requires { HasNames answer }
    ensures ends { AnswerEnds O.Sink E.Sink out.old out.new err.old err.new answer result }
    ensures writes { WritesFor result (O.faults out.old) (O.faults out.new) }
    ensures counted { E.faults err.old ≤ E.faults err.new }
{
    match answer {
        CallAnswer::Graph(graph) => tell_result(alloc, keys, &graph, out, err),
        CallAnswer::Fault { code, text } => tell_fault(alloc, &code, &text, err),
        CallAnswer::BadReply(number) => tell_bad_reply(number, err),
        CallAnswer::LinkFault => tell_link_fault(err),
        CallAnswer::NotArgs => {
            tell(b"amf: no form NotArgs node 0 value 0\n", err);
            7
        }
        CallAnswer::NoSpelling(lack) => end_with(RunEnd::NoForm { value: 0, lack }, err),
        CallAnswer::Memory => end_with(RunEnd::NoMemory, err),
    }
}

/// Writes the canonical spelling of a result, and gives the status of the program.
fn tell_result<O: Sink, E: Sink>(
    alloc: Global,
    keys: Option<RandomState>,
    graph: &Rooted,
    out: &mut O,
    err: &mut E,
) -> u8
    requires { IsNamed (content graph.now) }
    ensures ends { AnswerEnds O.Sink E.Sink out.old out.new err.old err.new (CallAnswer.Graph graph.now) result }
    ensures writes { WritesFor result (O.faults out.old) (O.faults out.new) }
    ensures counted { E.faults err.old ≤ E.faults err.new }
{
    let bytes = match spell3(alloc, keys, graph) {
        Ok(bytes) => bytes,
        Err(WriteEnd::Memory) => return end_with(RunEnd::NoMemory, err),
        // No name of a result is empty, so it has a spelling.
        Err(WriteEnd::NoSpelling(_)) => unreachable!(),
    };
    match write_whole(out, &bytes) {
        Ok(()) => 0,
        Err(_) => end_with(RunEnd::WriteFault, err),
    }
}
