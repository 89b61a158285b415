ghost use Rattle.std.specs.Prelude.{◌≡◌, ◌<◌, ◌≤◌, ◌^◌, [], ℕ, IfOk, IfErr, IfSome};
ghost use Rattle.std.specs.List.{AllByRecursion};
ghost use Rattle.amf_wire.specs.Text.{IsText};
ghost use Rattle.amf_io.specs.Dial.{IsFresh};
ghost use Rattle.amf_graph.specs.Arena.{Names};
ghost use Rattle.amf_poll_session.specs.Listened.{IsNumbered, CountsOutput};
ghost use Rattle.amf_poll_session.specs.Steps.{HeardOf, BringsTurn, IsReady, GoesOn, Puts, EndsPut, CountsPuts, NumberedOr};
ghost use Rattle.amf_poll_session.specs.Steps.{new_bodies, is_new, bodies_at, UsesLink, TakesOneTurn, AdvancesOr, CountsTurn};
ghost use Rattle.amf_poll_session.specs.Steps.{IsNoOutput, end_as};

use crate::ListenEnd;
use crate::output::spelled;
use crate::reply::{Heard, hear};
use crate::request::Request;
use crate::session::{Course, Session};
use amf_client::{AnswerFault, ReplyBuffer, read_result_keyed};
use amf_graph::{Rooted, Value};
use amf_io::{Link, Sink, write_whole};
use http_link::send;
use std::alloc::Global;
use std::hash::RandomState;

/// Where a link ends that gave no graph.
fn end_of(fault: AnswerFault) -> ListenEnd
    ensures { result ≡ end_as fault }
{
    match fault {
        AnswerFault::Fault { code, text } => ListenEnd::Fault { code, text },
        AnswerFault::BadReply(number) => ListenEnd::BadReply(number),
        AnswerFault::ReadFault => ListenEnd::LinkFault,
        AnswerFault::Memory => ListenEnd::Memory,
    }
}

/// What the graph is as an answer to the request.
fn heard(alloc: Global, graph: &Rooted, request: Request) -> Result<Heard, ListenEnd>
    ensures heard { HeardOf graph.now request result }
    ensures text { IfOk result (λ h. IsText h.ds_id) }
    ensures names { IfOk result (λ h. AllByRecursion (Names graph.now.arena) h.bodies.items) }
{
    match hear(alloc, graph, request) {
        Ok(Some(heard)) => Ok(heard),
        Ok(None) => Err(ListenEnd::BadReply(6)),
        Err(_) => Err(ListenEnd::Memory),
    }
}

/// Writes the bytes of a request to a link, and reads what answers it.
fn exchange<L: Link>(
    alloc: Global,
    keys: Option<RandomState>,
    link: &mut L,
    buffer: &mut ReplyBuffer,
    request: Request,
    bytes: &[u8],
) -> Result<(Rooted, Heard), ListenEnd>
    ensures exchanged { BringsTurn L.Link link.old link.new buffer.old buffer.new request bytes.now result }
    ensures text { IfOk result (λ x. IsText x.1.ds_id) }
    ensures names { IfOk result (λ x. AllByRecursion (Names x.0.arena) x.1.bodies.items) }
    ensures numbered { NumberedOr result }
    ensures no_output { IfErr result (λ e. IsNoOutput e) }
{
    let Ok(()) = send(link, bytes) else {
        return Err(ListenEnd::LinkFault);
    };
    match read_result_keyed(alloc, keys, link, buffer) {
        Ok(graph) => match heard(alloc, &graph, request) {
            Ok(heard) => Ok((graph, heard)),
            Err(end) => Err(end),
        },
        Err(fault) => Err(end_of(fault)),
    }
}

/// Writes the bodies of a batch, where it is new.
fn put_new<O: Sink>(
    alloc: Global,
    keys: Option<RandomState>,
    out: &mut O,
    graph: Rooted,
    bodies: Vec<Value>,
    is_new: bool,
) -> Result<(), ListenEnd>
    requires { AllByRecursion (Names graph.arena) bodies.items }
    ensures told { O.tells out.new → O.tells out.old }
    ensures puts { O.tells out.new → Puts (new_bodies is_new (bodies_at graph bodies.items)) (O.held out.old) (O.held out.new) result }
    ensures ends { EndsPut is_new result }
    ensures counts { CountsPuts (O.faults out.old) (O.faults out.new) result }
{
    if !is_new {
        return Ok(());
    }
    let Ok(bytes) = spelled(alloc, keys, graph, &bodies) else {
        return Err(ListenEnd::Memory);
    };
    let Ok(()) = write_whole(out, bytes.as_slice()) else {
        return Err(ListenEnd::WriteFault);
    };
    Ok(())
}

/// Takes what answers the request of the session: it writes the bodies that are new, and goes on. It says whether a request is left.
fn answered<O: Sink>(
    alloc: Global,
    keys: Option<RandomState>,
    course: &Course<'_>,
    session: &mut Session,
    out: &mut O,
    graph: Rooted,
    heard: Heard,
) -> Result<bool, ListenEnd>
    requires destination { IsText course.now.destination.now }
    requires few { (n : ℕ) → session.old.request ≡ Request.Poll n → n < 2 ^ 62 }
    requires ds_id { IsText session.old.ds_id }
    requires text { IsText heard.ds_id }
    requires names { AllByRecursion (Names graph.arena) heard.bodies.items }
    ensures goes_on { GoesOn course.now.port course.now.destination.now course.now.polls session.old session.new heard.ds_id result }
    ensures told { O.tells out.new → O.tells out.old }
    ensures puts { O.tells out.new → Puts (new_bodies (is_new session.old.request session.old.taker) (bodies_at graph heard.bodies.items)) (O.held out.old)
        (O.held out.new) result }
    ensures counts { CountsPuts (O.faults out.old) (O.faults out.new) result }
{
    let Heard { ds_id, bodies } = heard;
    let is_new = session.take(ds_id);
    match put_new(alloc, keys, out, graph, bodies, is_new) {
        Ok(()) => match session.go_on(alloc, keys, course) {
            Ok(more) => Ok(more),
            Err(_) => Err(ListenEnd::Memory),
        },
        Err(end) => Err(end),
    }
}

/// One turn over a link: the request of the session is written, its answer read and taken. It tells how the use of the link ended,
/// if it did.
fn take_turn<L: Link, O: Sink>(
    alloc: Global,
    keys: Option<RandomState>,
    link: &mut L,
    buffer: &mut ReplyBuffer,
    course: &Course<'_>,
    session: &mut Session,
    out: &mut O,
) -> Option<ListenEnd>
    requires destination { IsText course.now.destination.now }
    requires few { course.now.polls ≤ 1000000 }
    requires spent { session.old.spent ≤ 3 }
    requires ready { IsReady course.now.polls session.old.request session.old.taker }
    requires text { IsText session.old.ds_id }
    ensures turn { TakesOneTurn L.Link O.Sink course.now link.old link.new buffer.old buffer.new session.old session.new out.old out.new result }
    ensures advances { AdvancesOr course.now.polls session.old session.new result }
    ensures told { O.tells out.new → O.tells out.old }
    ensures counts { CountsTurn (O.faults out.old) (O.faults out.new) result }
    ensures numbered { IfSome result (λ e. IsNumbered e) }
{
    match exchange(
        alloc,
        keys,
        link,
        buffer,
        session.request,
        session.bytes.as_slice(),
    ) {
        Ok((graph, heard)) => {
            match answered(alloc, keys, course, session, out, graph, heard) {
                Ok(true) => None,
                Ok(false) => Some(ListenEnd::Done),
                Err(end) => Some(end),
            }
        }
        Err(end) => Some(end),
    }
}

/// The requests that go over one link, from that of the session on. It tells how the use of the link ended.
pub(crate) fn over_link<L: Link, O: Sink>(
    alloc: Global,
    keys: Option<RandomState>,
    link: &mut L,
    buffer: &mut ReplyBuffer,
    course: &Course<'_>,
    session: &mut Session,
    out: &mut O,
) -> ListenEnd
    requires destination { IsText course.now.destination.now }
    requires few { course.now.polls ≤ 1000000 }
    requires buffer { buffer.old ≡ [] }
    requires fresh { IsFresh (L.read_faults link.old) (L.write_faults link.old) }
    requires spent { session.old.spent ≤ 3 }
    requires ready { IsReady course.now.polls session.old.request session.old.taker }
    requires text { IsText session.old.ds_id }
    ensures over { UsesLink L.Link O.Sink course.now link.old link.new session.old session.new out.old out.new result }
    ensures told { O.tells out.new → O.tells out.old }
    ensures output { CountsOutput (O.faults out.old) (O.faults out.new) result }
    ensures numbered { IsNumbered result }
{
    for _ in 0..course.polls + 3 {
        match take_turn(alloc, keys, link, buffer, course, session, out) {
            None => {}
            Some(end) => return end,
        }
    }
    ListenEnd::Done
}
