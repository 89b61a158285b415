ghost use Rattle.std.specs.Prelude.{◌≡◌};
ghost use Rattle.amf_answer_plan.specs.Services.{services_of};
ghost use Rattle.amf_commands.specs.Askable.{IsServable};
ghost use Rattle.amf_cli.specs.Lines.{served_line as line};
ghost use Rattle.amf_commands.specs.Run.{CountsWrites};
ghost use Rattle.amf_cli.specs.ServeEnds.{first_end, TellsLine, IsServeEnd, EndsServe, ServesLinks, CountsFront};

use crate::lines::served_line;
use amf_commands::{RunEnd, ServeOptions};
use amf_desk::Closed;
use amf_io::{Front, Gate, Hall, Sink, write_whole};
use amf_service::Registry;
use amf_workers::{ServeAnswer, serve};
use std::alloc::Global;
use std::random::RandomSource;
use std::sync::Wait;
use std::thread::Threads;

/// Serves links by the options, and writes the line that tells how many calls, messages and deliveries there were.
pub fn serve_links<R: RandomSource + Threads + Wait + Sync, O: Sink, F: Front, G: Gate>(
    rt: &R,
    alloc: Global,
    options: ServeOptions,
    out: &mut O,
    front: &mut F,
    gate: &G,
    registry: &Registry,
) -> Result<(), RunEnd>
where
    <F::Hall as Hall>::Link: Send,
    requires { IsServable options }
    ensures served { ServesLinks F.Front F.Hall.Hall F.Hall.Link.Link O.Sink (services_of registry.now knows gives) options
        front.old front.new out.old out.new result }
    ensures ends { IsServeEnd result }
    ensures tells { O.tells out.new → O.tells out.old }
    ensures writes { CountsWrites (O.faults out.old) (O.faults out.new) result }
    ensures faults { CountsFront (F.faults front.old) (F.faults front.new) result }
{
    let answer = serve(
        rt,
        alloc,
        front,
        gate,
        registry,
        options.port,
        options.workers,
        u64::from(options.each),
    );
    conclude(answer, out)
}

/// Writes the line, where the front was opened, and says how the run ends.
fn conclude<O: Sink>(answer: ServeAnswer, out: &mut O) -> Result<(), RunEnd>
    ensures ends { EndsServe (out.new ≡ out.old) (O.tells out.new) (O.held out.old) (O.held out.new) (O.faults out.old) (O.faults out.new) answer result }
    ensures tells { O.tells out.new → O.tells out.old }
    ensures writes { CountsWrites (O.faults out.old) (O.faults out.new) result }
{
    match answer {
        ServeAnswer::Memory => Err(RunEnd::NoMemory),
        ServeAnswer::NotOpened => Err(RunEnd::FrontFault),
        ServeAnswer::Closed {
            counts,
            starved,
            faulty,
        } => {
            let told = tell(&counts, out);
            first_of(starved, told, faulty)
        }
    }
}

/// Writes the line of what a closed desk tells. It takes no memory.
fn tell<O: Sink>(closed: &Closed, out: &mut O) -> Result<(), RunEnd>
    ensures line { TellsLine (O.tells out.new) (O.held out.old) (O.held out.new) (line closed.now) result }
    ensures tells { O.tells out.new → O.tells out.old }
    ensures writes { CountsWrites (O.faults out.old) (O.faults out.new) result }
{
    let text = served_line(closed);
    match write_whole(out, text.as_str().as_bytes()) {
        Ok(()) => Ok(()),
        Err(_) => Err(RunEnd::WriteFault),
    }
}

/// Want of memory goes before a fault of the output, and this before one of the front.
fn first_of(starved: bool, told: Result<(), RunEnd>, faulty: bool) -> Result<(), RunEnd>
    ensures { result ≡ first_end starved told faulty }
{
    if starved {
        return Err(RunEnd::NoMemory);
    }
    match told {
        Ok(()) if faulty => Err(RunEnd::FrontFault),
        told => told,
    }
}
