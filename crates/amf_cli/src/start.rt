ghost use Rattle.std.specs.Prelude.{◌≡◌, false};
ghost use Rattle.std.specs.Process.{exit_status};
ghost use Rattle.amf_answer_plan.specs.Services.{services_of};
ghost use Rattle.amf_cli.specs.Starts.{Starts, AreWords};

use crate::arguments::{Arguments, words_of};
use crate::run::run;
use amf_commands::{RunEnd, end_with};
use amf_io::{Dial, Front, Gate, Hall, Sink, Source};
use amf_service::Registry;
use std::alloc::Global;
use std::process::ExitCode;
use std::random::RandomSource;
use std::sync::Wait;
use std::thread::Threads;

/// Does what the words of the arguments say, and gives the exit code of the program, which is the status that `run` gives for
/// them. Where there is no memory to take the words, nothing else is asked of anything, and the code is 5. No link of the dial is out.
pub fn start<
    R: RandomSource + Threads + Wait + Sync,
    A: Arguments,
    I: Source,
    O: Sink,
    E: Sink,
    F: Front,
    G: Gate,
    D: Dial,
>(
    rt: &R,
    alloc: Global,
    arguments: &A,
    input: &mut I,
    out: &mut O,
    err: &mut E,
    front: &mut F,
    gate: &G,
    registry: &Registry,
    dial: &mut D,
) -> ExitCode
where
    <F::Hall as Hall>::Link: Send,
    requires none_out { D.is_out dial.old ≡ false }
    ensures { Starts I.Source O.Sink E.Sink F.Front F.Hall.Hall F.Hall.Link.Link D.Dial D.Link.Link (services_of registry.now knows gives)
        (AreWords A.Arguments arguments.now) (exit_status result)
        (input.old, out.old, err.old, front.old, dial.old) (input.new, out.new, err.new, front.new, dial.new) }
{
    registry.are_lawful();
    match words_of(alloc, arguments) {
        Ok(words) => {
            let status = run(
                rt, alloc, &words, input, out, err, front, gate, registry, dial,
            );
            ExitCode::from(status)
        }
        Err(_) => ExitCode::from(end_with(RunEnd::NoMemory, err)),
    }
}
