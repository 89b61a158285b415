ghost use Rattle.std.specs.Prelude.{◌≡◌, false, IfOk, OnErr};
ghost use Rattle.std.specs.Process.{exit_status};
ghost use Rattle.amf_service.specs.Shipped.{shipped as shipped_services};
ghost use Rattle.amf_cli.specs.Starts.{Starts, AreWords};

use crate::arguments::Arguments;
use crate::start::start;
use amf_commands::{RunEnd, end_with};
use amf_io::{Dial, Front, Hall, OpenGate, Sink, Source};
use amf_service::{Echo, Names, Registry, Service, Sum, service_laws};
use amf_wire::{Memory, Name};
use std::alloc::Global;
use std::process::ExitCode;
use std::random::RandomSource;
use std::sync::Wait;
use std::thread::Threads;

/// Does what the words of the arguments say, as `start` does it, with the services that are shipped. Where there is no memory for
/// them, nothing is asked of anything, and the code is 5. No link of the dial is out.
pub fn start_with_services<
    R: RandomSource + Threads + Wait + Sync,
    A: Arguments,
    I: Source,
    O: Sink,
    E: Sink,
    F: Front,
    D: Dial,
>(
    rt: &R,
    alloc: Global,
    arguments: &A,
    input: &mut I,
    out: &mut O,
    err: &mut E,
    front: &mut F,
    dial: &mut D,
) -> ExitCode
where
    <F::Hall as Hall>::Link: Send,
    requires none_out { D.is_out dial.old ≡ false }
    ensures { Starts I.Source O.Sink E.Sink F.Front F.Hall.Hall F.Hall.Link.Link D.Dial D.Link.Link shipped_services
        (AreWords A.Arguments arguments.now) (exit_status result)
        (input.old, out.old, err.old, front.old, dial.old) (input.new, out.new, err.new, front.new, dial.new) }
{
    // Also where there is no memory for the services, the law of services holds of them.
    service_laws();
    match start_shipped(rt, alloc, arguments, input, out, err, front, dial) {
        Ok(code) => code,
        Err(_) => ExitCode::from(end_with(RunEnd::NoMemory, err)),
    }
}

/// The same, unless memory ran out for the services, and then nothing is asked of anything. Each service has the name of its operation.
fn start_shipped<
    R: RandomSource + Threads + Wait + Sync,
    A: Arguments,
    I: Source,
    O: Sink,
    E: Sink,
    F: Front,
    D: Dial,
>(
    rt: &R,
    alloc: Global,
    arguments: &A,
    input: &mut I,
    out: &mut O,
    err: &mut E,
    front: &mut F,
    dial: &mut D,
) -> Result<ExitCode, Memory>
where
    <F::Hall as Hall>::Link: Send,
    requires none_out { D.is_out dial.old ≡ false }
    ensures runs { IfOk result (λ code. Starts I.Source O.Sink E.Sink F.Front F.Hall.Hall F.Hall.Link.Link D.Dial D.Link.Link shipped_services
        (AreWords A.Arguments arguments.now) (exit_status code)
        (input.old, out.old, err.old, front.old, dial.old) (input.new, out.new, err.new, front.new, dial.new)) }
    ensures untouched { OnErr result ((input.new ≡ input.old) × (out.new ≡ out.old) × (err.new ≡ err.old)
        × (front.new ≡ front.old) × (dial.new ≡ dial.old)) }
{
    let mut entries: Vec<(Name, Box<dyn Service>)> = Vec::new(alloc);
    entries.push((Name::of_bytes(alloc, b"echo")?, Box::new(alloc, Echo)?))?;
    entries.push((Name::of_bytes(alloc, b"sum")?, Box::new(alloc, Sum)?))?;
    entries.push((Name::of_bytes(alloc, b"names")?, Box::new(alloc, Names)?))?;
    let Ok(registry) = Registry::new(alloc, entries) else {
        return Err(Memory);
    };
    Ok(start(
        rt, alloc, arguments, input, out, err, front, &OpenGate, &registry, dial,
    ))
}
