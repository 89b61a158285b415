ghost use Rattle.std.specs.Prelude.{◌≡◌, ◌≤◌, false};
ghost use Rattle.amf_commands.specs.Askable.{IsListenable};
ghost use Rattle.amf_cli.specs.ListenEnds.{EndTells, ListenEnds};
ghost use Rattle.amf_cli.specs.CallSteps.{WritesFor};

use crate::telling::{tell_bad_reply, tell_fault, tell_link_fault};
use amf_commands::{ListenOptions, RunEnd, end_with};
use amf_io::{Dial, Sink};
use amf_poll_session::{ListenEnd, listen_keyed};
use std::alloc::Global;
use std::hash::RandomState;

/// Listens, which writes what is delivered, and gives the status of the program.
pub fn run_listen<O: Sink, E: Sink, D: Dial>(
    alloc: Global,
    keys: Option<RandomState>,
    options: &ListenOptions,
    out: &mut O,
    err: &mut E,
    dial: &mut D,
) -> u8
    requires listenable { IsListenable options.now }
    requires none_out { D.is_out dial.old ≡ false }
    ensures none_out { D.is_out dial.new ≡ false }
    ensures ends { ListenEnds O.Sink E.Sink D.Dial D.Link.Link options.now result out.old out.new err.old err.new dial.old dial.new }
    ensures writes { WritesFor result (O.faults out.old) (O.faults out.new) }
    ensures counted { E.faults err.old ≤ E.faults err.new }
{
    let polls = u64::from(options.polls);
    let end = listen_keyed(
        alloc,
        keys,
        dial,
        out,
        options.port,
        &options.destination,
        polls,
    );
    tell_end(alloc, end, err)
}

/// Writes the error line of an end, where it has one, and gives the status of the program.
fn tell_end<E: Sink>(alloc: Global, end: ListenEnd, err: &mut E) -> u8
    ensures tells { EndTells E.Sink err.old err.new end result }
    ensures counted { E.faults err.old ≤ E.faults err.new }
{
    match end {
        ListenEnd::Done => 0,
        ListenEnd::Fault { code, text } => tell_fault(alloc, &code, &text, err),
        ListenEnd::BadReply(number) => tell_bad_reply(number, err),
        ListenEnd::LinkFault => tell_link_fault(err),
        ListenEnd::WriteFault => end_with(RunEnd::WriteFault, err),
        ListenEnd::Memory => end_with(RunEnd::NoMemory, err),
    }
}
