ghost use Rattle.std.specs.Prelude.{◌≡◌};

use amf_desk::{Desk, Pass};
use amf_gateway::serve_link;
use amf_io::{FaultlessHall, FaultlessLink, FaultlessSource, Joined, MemorySink, OpenGate};
use amf_service::{Registry, Service};
use amf_wire::Name;
use std::alloc::Global;
use std::sync::Wait;
use std::test::Fail;

/// What the gateway answers to the bytes of one link.
fn answer<R: Wait>(
    rt: &R,
    alloc: Global,
    registry: &Registry,
    desk: &Desk,
    pass: &mut Pass,
    bytes: &[u8],
) -> Result<Vec<u8>, Fail>
    requires { pass.old.desk ≡ desk.now }
    ensures { pass.new.desk ≡ pass.old.desk }
{
    let mut link = Joined {
        source: FaultlessSource::new(alloc, bytes, usize::MAX, 0)?,
        sink: MemorySink::new(alloc, usize::MAX, &[])?,
    };
    let mut hall: FaultlessHall<FaultlessLink> = FaultlessHall::new(
        alloc,
        Vec::new(alloc),
        &[],
        &[],
    )?;
    let mut calls = 0;
    let _end = serve_link(
        rt, alloc, &mut link, registry, desk, pass, &mut hall, &OpenGate, 1, &mut calls,
    );
    Ok(link.sink.as_bytes().to_vec(alloc)?)
}

/// What the gateway answers at a new desk with `chat`, to links that come one after the other. Its clock and its dice give 0.
pub(crate) fn answers<R: Wait>(
    rt: &R,
    alloc: Global,
    links: &[Vec<u8>],
) -> Result<Vec<Vec<u8>>, Fail> {
    let mut destinations = Vec::new(alloc);
    destinations.push(Name::of_bytes(alloc, b"chat")?)?;
    let Ok((desk, mut pass)) = Desk::open(alloc, destinations) else {
        return Err("no desk".into());
    };
    let services: Vec<(Name, Box<dyn Service>)> = Vec::new(alloc);
    let Ok(registry) = Registry::new(alloc, services) else {
        return Err("no registry".into());
    };
    let mut told = Vec::new(alloc);
    for link in links {
        told.push(answer(rt, alloc, &registry, &desk, &mut pass, link)?)?;
    }
    Ok(told)
}
