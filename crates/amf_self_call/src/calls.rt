ghost use Rattle.std.specs.Prelude.{◌≡◌, ◌<◌, ◌^◌, [], length, IfOk};
ghost use Rattle.amf_wire.specs.Text.{IsText};
ghost use Rattle.amf_graph.specs.Rooted.{content};
ghost use Rattle.amf_io.specs.InMemory.{taken};
ghost use Rattle.amf_client.specs.Asking.{IsAsk};
ghost use Rattle.amf_answer_plan.specs.Services.{services_of};
ghost use Rattle.amf_gateway.specs.Handed.{PassGoesOn};
ghost use Rattle.amf_gateway.specs.ServesLink.{end_of};
ghost use Rattle.amf_self_call.specs.Rounds.{MayCall, Answers};
ghost use Rattle.amf_self_call.specs.Steps.{AsksNothing, is_ended, IsAnswered, told_as, IsRead};

use crate::RoundEnd;
use crate::wires::{PORT, wire_of};
use amf_client::{AnswerFault, ReplyBuffer, read_result, write_call};
use amf_desk::{Desk, Pass};
use amf_gateway::{LinkEnd, serve_link};
use amf_graph::Rooted;
use amf_io::{FaultlessHall, FaultlessLink, Joined, MemorySink, OpenGate};
use amf_self_call_laws::{a_call_is_quiet, an_exchange_tells};
use amf_service::Registry;
use amf_wire::{Memory, Name};
use std::alloc::Global;
use std::sync::Wait;

/// What `write_call` writes.
fn asked(alloc: Global, target: &Name, args: &Rooted) -> Result<MemorySink, Memory>
    requires text { IsText target.now }
    requires short { length target.now < 2 ^ 16 }
    ensures ask { IfOk result (λ sink. IsAsk 80 target.now (content args.now) (taken sink)) }
    ensures fits { IfOk result (λ sink. length (taken sink) < 2 ^ 64) }
{
    let mut wire = wire_of(alloc, &[])?;
    match write_call(alloc, &mut wire, PORT, target, args) {
        Ok(()) => {
            let Joined {
                source: _source,
                sink,
            } = wire;
            Ok(sink)
        }
        Err(_) => Err(Memory),
    }
}

/// Whether all was answered. Else there was no memory left: a link in memory fails for nothing else, and no call is asked for.
fn is_ended(end: LinkEnd) -> bool
    ensures { result ≡ is_ended (end_of end) }
{
    matches!(
        end,
        LinkEnd::Closed | LinkEnd::Refused(_) | LinkEnd::Truncated
    )
}

/// What the gateway answers to these bytes.
fn answered<R: Wait>(
    rt: &R,
    alloc: Global,
    registry: &Registry,
    desk: &Desk,
    pass: &mut Pass,
    call: &[u8],
) -> Result<MemorySink, Memory>
    requires desk { pass.old.desk ≡ desk.now }
    requires quiet { AsksNothing (services_of registry.now knows gives) call.now }
    ensures answered { IfOk result (λ sink. IsAnswered (services_of registry.now knows gives) call.now (taken sink)) }
    ensures stays { PassGoesOn pass.old pass.new [] }
{
    let mut wire = wire_of(alloc, call)?;
    let mut hall: FaultlessHall<FaultlessLink> = FaultlessHall::new(
        alloc,
        Vec::new(alloc),
        &[],
        &[],
    )?;
    let mut calls = 0;
    let end = serve_link(
        rt, alloc, &mut wire, registry, desk, pass, &mut hall, &OpenGate, 0, &mut calls,
    );
    let Joined {
        source: _source,
        sink,
    } = wire;
    if is_ended(end) { Ok(sink) } else { Err(Memory) }
}

/// What was read so. No read of a link in memory fails.
fn told(read: Result<Rooted, AnswerFault>) -> Result<Rooted, RoundEnd>
    ensures { result ≡ told_as read }
{
    match read {
        Ok(graph) => Ok(graph),
        Err(AnswerFault::Fault { code, text }) => Err(RoundEnd::Fault { code, text }),
        Err(AnswerFault::BadReply(number)) => Err(RoundEnd::BadReply(number)),
        Err(AnswerFault::ReadFault | AnswerFault::Memory) => Err(RoundEnd::Memory),
    }
}

/// What `read_result` reads of these bytes.
fn read_back(alloc: Global, reply: &[u8]) -> Result<Rooted, RoundEnd>
    ensures { IsRead reply.now result }
{
    let mut wire = wire_of(alloc, reply)?;
    let mut buffer = ReplyBuffer::new(alloc)?;
    told(read_result(alloc, &mut wire, &mut buffer))
}

/// Makes a call of our own gateway over memory, from end to end: the call for port 80 is written, the gateway with these services
/// answers its bytes, and the answer is read. `may_call` tells which targets and arguments may be
/// called. The desk is that of the pass: it is not called.
///
/// `BadReply(8)` comes exactly where the packet of the call is longer than 1,048,576 bytes. Else a target without a dot has
/// the fault `Client.NoService`; and of another target `BadReply(3)` comes exactly where the packet of the reply is longer than
/// 16,777,216 bytes, and else a graph exactly where the service means one that has a spelling: that one, up to the numbers of
/// its nodes. Else `Fault` has the code and the text of what the service means, or of the form that its result lacks. `Memory` comes
/// where there is no room.
pub fn round<R: Wait>(
    rt: &R,
    alloc: Global,
    registry: &Registry,
    desk: &Desk,
    pass: &mut Pass,
    target: &Name,
    args: &Rooted,
) -> Result<Rooted, RoundEnd>
    requires call { MayCall target.now (content args.now) }
    requires desk { pass.old.desk ≡ desk.now }
    ensures answers { Answers (services_of registry.now knows gives) target.now (content args.now) result }
    ensures stays { PassGoesOn pass.old pass.new [] }
{
    registry.are_lawful();
    args.is_finished();
    a_call_is_quiet();
    an_exchange_tells();
    let call = asked(alloc, target, args)?;
    let reply = answered(rt, alloc, registry, desk, pass, call.as_bytes())?;
    read_back(alloc, reply.as_bytes())
}
