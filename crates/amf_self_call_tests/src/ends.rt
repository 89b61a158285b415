ghost use Rattle.std.specs.Prelude.{◌≡◌, ◌<◌};
ghost use Rattle.amf_graph.specs.Rooted.{content};
ghost use Rattle.amf_self_call.specs.Rounds.{MayCall};

use amf_desk::{Desk, Pass};
use amf_graph::Rooted;
use amf_self_call::{RoundEnd, may_call, round};
use amf_service::{Echo, Names, Registry, Service, Sum};
use amf_wire::Name;
use amf3_write::write3;
use std::alloc::Global;
use std::process::Abort;
use std::sync::Wait;

/// A name of these bytes.
pub(crate) fn name_of(rt: &impl Abort, alloc: Global, bytes: &[u8]) -> Name
    ensures { result ≡ bytes.now }
{
    Name::of_bytes(alloc, bytes).expect(rt, "a name")
}

/// Adds a service by its name.
fn add(
    rt: &impl Abort,
    alloc: Global,
    entries: &mut Vec<(Name, Box<dyn Service>)>,
    name: &[u8],
    service: Box<dyn Service>,
) {
    entries
        .push((name_of(rt, alloc, name), service))
        .expect(rt, "memory");
}

/// The services that are shipped.
fn services(rt: &impl Abort, alloc: Global) -> Registry {
    let mut entries: Vec<(Name, Box<dyn Service>)> = Vec::new(alloc);
    let echo: Box<dyn Service> = Box::new(alloc, Echo).expect(rt, "a service");
    add(rt, alloc, &mut entries, b"echo", echo);
    let sum: Box<dyn Service> = Box::new(alloc, Sum).expect(rt, "a service");
    add(rt, alloc, &mut entries, b"sum", sum);
    let names: Box<dyn Service> = Box::new(alloc, Names).expect(rt, "a service");
    add(rt, alloc, &mut entries, b"names", names);
    match Registry::new(alloc, entries) {
        Ok(registry) => registry,
        Err(_) => panic!(rt; "no registry"),
    }
}

/// The canonical spelling of a graph in AMF 3.
fn spelled(rt: &impl Abort, alloc: Global, graph: &Rooted) -> Vec<u8> {
    let mut out = Vec::new(alloc);
    write3(alloc, graph, &mut out).expect(rt, "a spelling");
    out
}

/// Two pieces, one behind the other.
fn joined(rt: &impl Abort, alloc: Global, front: &[u8], back: &[u8]) -> Vec<u8> {
    let mut bytes = front.to_vec(alloc).expect(rt, "memory");
    bytes.extend_from_slice(b": ").expect(rt, "memory");
    bytes.extend_from_slice(back).expect(rt, "memory");
    bytes
}

/// What came back, as bytes: the spelling of a graph, the code and the text of a fault, or the number of a bad reply.
fn told(rt: &impl Abort, alloc: Global, answer: &Result<Rooted, RoundEnd>) -> Vec<u8> {
    match answer {
        Ok(graph) => spelled(rt, alloc, graph),
        Err(RoundEnd::Fault { code, text }) => {
            joined(rt, alloc, code.as_bytes(), text.as_bytes())
        }
        Err(RoundEnd::BadReply(number)) => joined(rt, alloc, b"bad reply", &[*number]),
        Err(RoundEnd::Memory) => panic!(rt; "no memory"),
    }
}

/// What comes back of a call that may be made, as bytes.
fn answered<R: Wait + Abort>(
    rt: &R,
    alloc: Global,
    desk: &Desk,
    pass: &mut Pass,
    target: &Name,
    args: &Rooted,
) -> Vec<u8>
    requires call { MayCall target.now (content args.now) }
    requires desk { pass.old.desk ≡ desk.now }
    ensures desk { pass.new.desk ≡ pass.old.desk }
    ensures budget { pass.new.budget ≡ pass.old.budget }
{
    let registry = services(rt, alloc);
    let answer = round(rt, alloc, &registry, desk, pass, target, args);
    told(rt, alloc, &answer)
}

/// What comes back of a call that may be made, at a new desk, of which no call is made.
fn called<R: Wait + Abort>(rt: &R, alloc: Global, target: &Name, args: &Rooted) -> Vec<u8>
    requires { MayCall target.now (content args.now) }
{
    let (desk, mut pass) = Desk::open(alloc, Vec::new(alloc)).expect(rt, "a desk");
    let answer = answered(rt, alloc, &desk, &mut pass, target, args);
    let calls = desk.close(rt, pass).calls;
    assert!(rt; calls == 0, "a call of the desk");
    answer
}

/// What comes back of a call, or nothing where it may not be made.
pub(crate) fn round_of<R: Wait + Abort>(
    rt: &R,
    alloc: Global,
    target: &[u8],
    args: &Rooted,
) -> Option<Vec<u8>> {
    let target = name_of(rt, alloc, target);
    if may_call(alloc, &target, args).expect(rt, "memory") {
        Some(called(rt, alloc, &target, args))
    } else {
        None
    }
}
