//! How the requests of a link are answered, one after the other.

ghost use Rattle.std.specs.Prelude.{◌≡◌, ◌≤◌, length, ◌==◌, ◌||◌, [], IfOk};
ghost use Rattle.amf_io.specs.Outside.{Keeps};
ghost use Rattle.amf_http.specs.Response.{Writes, CountsWrites};
ghost use Rattle.amf_answer_plan.specs.Services.{services_of};
ghost use Rattle.amf_gateway.specs.Answered.{most_body};
ghost use Rattle.amf_gateway.specs.ServesLink.{end_of, CountsLink, is_starved};
ghost use Rattle.amf_gateway.specs.LinkSteps.{ServedOn, AnswersRequest, ComesOn, IsAnswer, written_as, ends_with, StepsOn, CountsStep, CountsReads};

use crate::bodies::answer_body;
use amf_answer_plan::outside::{Outside, Unanswered};
use amf_http::{AnswerEnd, HttpBuffer, HttpEnd, HttpRequest, next_request, write_response};
use amf_io::Link;
use amf_service::Registry;
use std::alloc::Global;

/// How a link ended.
#[derive(Clone, Copy, Debug, PartialEq, Eq)]
pub enum LinkEnd {
    /// The peer ended between requests, or the last answer said that it is the last.
    Closed,
    /// A request was answered with this status.
    Refused(u16),
    /// The peer ended inside a request.
    Truncated,
    /// A read of the link failed.
    ReadFault,
    /// A write or a flush of the link failed.
    WriteFault,
    /// No more calls of the desk may be made.
    Spent,
    /// There was no memory left.
    Memory,
}

impl LinkEnd {
    /// Whether it ended because memory ran out.
    pub(crate) fn is_starved(self) -> bool
        ensures { result ≡ is_starved (end_of self) }
    {
        matches!(self, LinkEnd::Memory)
    }
}

impl From<AnswerEnd> for LinkEnd {
    ghost use Rattle.std.specs.Prelude.{◌≡◌};
    ghost use Rattle.amf_gateway.specs.LinkSteps.{unwritten};

    ghost from_gives = { λ e end. end ≡ unwritten e };

    fn from(end: AnswerEnd) -> LinkEnd {
        match end {
            AnswerEnd::WriteFault => LinkEnd::WriteFault,
            AnswerEnd::Memory => LinkEnd::Memory,
        }
    }
}

/// The most requests of a link.
const MOST_REQUESTS: u32 = 1000;

/// What a request is answered with.
#[derive(Drop)]
pub(crate) enum Answer {
    /// The bytes of a packet, after which the link ends or goes on.
    Packet { bytes: Vec<u8>, close: bool },
    /// A status alone, which ends the link.
    Status(u16),
}

impl Answer {
    /// Writes it.
    fn write<L: Link>(&self, alloc: Global, link: &mut L) -> Result<(), AnswerEnd>
        requires { IsAnswer self.now }
        ensures tells { L.tells_held link.new → L.tells_held link.old }
        ensures writes { L.tells_held link.new → Writes (L.held link.old) (L.held link.new) (written_as self.now) result }
        ensures cause { CountsWrites (L.write_faults link.old) (L.write_faults link.new) result }
        ensures other_side { Keeps (L.tells_left link.old) (L.tells_left link.new) (L.left link.old) (L.left link.new) }
        ensures other_count { L.read_faults link.new ≡ L.read_faults link.old }
    {
        match self {
            Answer::Packet { bytes, close } => {
                write_response(alloc, link, 200, bytes.as_slice(), *close)
            }
            Answer::Status(status) => write_response(alloc, link, *status, &[], true),
        }
    }

    /// How the link ends after it, if it does.
    fn end(&self) -> Result<(), LinkEnd>
        ensures { result ≡ ends_with self.now }
    {
        match self {
            Answer::Packet { close: false, .. } => Ok(()),
            Answer::Packet { close: true, .. } => Err(LinkEnd::Closed),
            Answer::Status(status) => Err(LinkEnd::Refused(*status)),
        }
    }
}

/// Whether the link ends after the answer to a request.
fn closes(request: &HttpRequest, last: bool) -> bool
    ensures { result ≡ (request.now.close || last) }
{
    request.close || last
}

/// What a request is answered with: a packet, or 400 where its body is none.
fn answer_request<O: Outside>(
    alloc: Global,
    outside: &mut O,
    registry: &Registry,
    request: &HttpRequest,
    last: bool,
) -> Result<Answer, LinkEnd>
    requires short { length request.now.body ≤ most_body }
    requires ready { O.may_call outside.old }
    ensures { AnswersRequest O.handed (services_of registry.now knows gives) request.now.body (request.now.close || last) outside.old outside.new result }
{
    let close = closes(request, last);
    match answer_body(alloc, outside, registry, request.body.as_slice()) {
        Ok(Some(bytes)) => Ok(Answer::Packet { bytes, close }),
        Ok(None) => Ok(Answer::Status(400)),
        Err(Unanswered::Spent) => Err(LinkEnd::Spent),
        Err(Unanswered::Memory) => Err(LinkEnd::Memory),
    }
}

/// Reads the next request of a link, and gives what it is answered with. The last request is answered with close.
fn prepare_answer<O: Outside, L: Link>(
    alloc: Global,
    outside: &mut O,
    registry: &Registry,
    link: &mut L,
    buffer: &mut HttpBuffer,
    last: bool,
) -> Result<Answer, LinkEnd>
    requires { O.may_call outside.old }
    ensures tells { L.tells_left link.old → L.tells_left link.new }
    ensures comes { ComesOn L.Link O.handed (services_of registry.now knows gives) last outside.old outside.new buffer.old buffer.new link.old link.new result }
    ensures status { IfOk result (λ answer. IsAnswer answer) }
    ensures cause { CountsReads (L.read_faults link.old) (L.read_faults link.new) result }
    ensures other_side { Keeps (L.tells_held link.old) (L.tells_held link.new) (L.held link.old) (L.held link.new) }
    ensures other_count { L.write_faults link.new ≡ L.write_faults link.old }
{
    match next_request(alloc, link, buffer) {
        Ok(Some(request)) => answer_request(alloc, outside, registry, &request, last),
        Ok(None) => Err(LinkEnd::Closed),
        Err(HttpEnd::Status(status)) => Ok(Answer::Status(status)),
        Err(HttpEnd::Truncated) => Err(LinkEnd::Truncated),
        Err(HttpEnd::ReadFault) => Err(LinkEnd::ReadFault),
        Err(HttpEnd::Memory) => Err(LinkEnd::Memory),
    }
}

/// Answers the next request of a link. An error is how the link ended.
fn answer_next<O: Outside, L: Link>(
    alloc: Global,
    outside: &mut O,
    registry: &Registry,
    link: &mut L,
    buffer: &mut HttpBuffer,
    last: bool,
) -> Result<(), LinkEnd>
    requires { O.may_call outside.old }
    ensures tells_left { L.tells_left link.old → L.tells_left link.new }
    ensures tells_held { L.tells_held link.new → L.tells_held link.old }
    ensures steps { StepsOn L.Link O.handed (services_of registry.now knows gives) last outside.old outside.new buffer.old buffer.new link.old link.new result }
    ensures cause { CountsStep (L.read_faults link.old) (L.read_faults link.new) (L.write_faults link.old) (L.write_faults link.new) result }
{
    let answer = prepare_answer(alloc, outside, registry, link, buffer, last)?;
    answer.write(alloc, link)?;
    answer.end()
}

/// Answers the requests of a link, one after the other, and says how it ended. The buffer keeps nothing yet.
fn answer_requests<O: Outside, L: Link>(
    alloc: Global,
    outside: &mut O,
    registry: &Registry,
    link: &mut L,
    buffer: &mut HttpBuffer,
) -> LinkEnd
    requires ready { O.may_call outside.old }
    requires empty { buffer.old ≡ [] }
    ensures tells_left { L.tells_left link.old → L.tells_left link.new }
    ensures tells_held { L.tells_held link.new → L.tells_held link.old }
    ensures served { ServedOn L.Link O.handed (services_of registry.now knows gives) outside.old outside.new link.old link.new result }
    ensures cause { CountsLink (L.read_faults link.old) (L.read_faults link.new) (L.write_faults link.old) (L.write_faults link.new) (end_of result) }
{
    let mut more = MOST_REQUESTS;
    while more > 0 {
        more -= 1;
        match answer_next(alloc, outside, registry, link, buffer, more == 0) {
            Ok(()) => {}
            Err(end) => return end,
        }
    }
    LinkEnd::Closed
}

/// Answers the requests of a link, one after the other, and says how it ended. At most 1,000 are answered, and each before the
/// next is read.
pub(crate) fn answer_link<O: Outside, L: Link>(
    alloc: Global,
    outside: &mut O,
    registry: &Registry,
    link: &mut L,
) -> LinkEnd
    requires { O.may_call outside.old }
    ensures tells_left { L.tells_left link.old → L.tells_left link.new }
    ensures tells_held { L.tells_held link.new → L.tells_held link.old }
    ensures served { ServedOn L.Link O.handed (services_of registry.now knows gives) outside.old outside.new link.old link.new result }
    ensures cause { CountsLink (L.read_faults link.old) (L.read_faults link.new) (L.write_faults link.old) (L.write_faults link.new) (end_of result) }
{
    match HttpBuffer::new(alloc) {
        Ok(mut buffer) => answer_requests(alloc, outside, registry, link, &mut buffer),
        Err(_) => LinkEnd::Memory,
    }
}
