ghost use Rattle.std.specs.Prelude.{◌≡◌, ◌<◌, ◌≤◌, ◌^◌, ℕ, length, IfOk};
ghost use Rattle.amf_wire.specs.Text.{IsText};
ghost use Rattle.amf_poll_session.specs.Sessions.{first_session};
ghost use Rattle.amf_poll_session.specs.Steps.{IsReady, next_of, id_after, asks_after, is_new, is_again, Shows, WentOn};

use crate::ListenEnd;
use crate::asking::asked;
use crate::request::Request;
use amf_once::{Taken, Taker};
use amf_wire::{Memory, Name};
use std::alloc::Global;
use std::hash::RandomState;

/// The most dials that are spent on a request.
const MOST_DIALS: u8 = 3;

/// Where requests go, and how many polls there are.
#[derive(Clone, Copy)]
pub(crate) struct Course<'a> {
    pub(crate) port: u16,
    pub(crate) destination: &'a Name,
    pub(crate) polls: u64,
}

/// Where a listener stands: its next request with its bytes, the dials spent on it, the DSId, and the taker.
#[derive(Drop)]
pub(crate) struct Session {
    pub(crate) request: Request,
    pub(crate) bytes: Vec<u8>,
    pub(crate) spent: u8,
    pub(crate) ds_id: Name,
    pub(crate) taker: Taker,
}

impl Session {
    /// The session that begins with a ping.
    pub(crate) fn new(
        alloc: Global,
        keys: Option<RandomState>,
        course: &Course<'_>,
    ) -> Result<Session, Memory>
        requires text { IsText course.now.destination.now }
        ensures shows { IfOk result (λ v. Shows course.now.port course.now.destination.now v first_session) }
        ensures text { IfOk result (λ v. IsText v.ds_id) }
    {
        let ds_id = Name::of_bytes(alloc, b"nil")?;
        let request = Request::Ping;
        let bytes = asked(
            alloc,
            keys,
            course.port,
            course.destination,
            &ds_id,
            request,
        )?;
        Ok(Session {
            request,
            bytes,
            spent: 0,
            ds_id,
            taker: Taker::new(),
        })
    }

    /// Whether the same request is sent again after this end of a link or of a dial.
    pub(crate) fn asks_again(&self, end: &ListenEnd) -> bool
        ensures { result ≡ is_again end.now self.now.request self.now.spent }
    {
        let is_retried = match self.request {
            Request::Ping | Request::Subscribe => false,
            Request::Poll(_) | Request::Disconnect => true,
        };
        match end {
            ListenEnd::LinkFault => is_retried && self.spent < MOST_DIALS,
            ListenEnd::BadReply(number) => { *number == 7 && is_retried && self.spent < MOST_DIALS }
            _ => false,
        }
    }

    /// The request behind an answered one, if there is one.
    fn next(&self, course: &Course<'_>) -> Option<Request>
        ensures { result ≡ next_of course.now.polls self.now.request self.now.taker }
    {
        match self.request {
            Request::Ping => Some(Request::Subscribe),
            Request::Subscribe | Request::Poll(_) => {
                let number = self.taker.asks();
                if course.polls < number {
                    Some(Request::Disconnect)
                } else {
                    Some(Request::Poll(number))
                }
            }
            Request::Disconnect => None,
        }
    }

    /// Takes what an answer told: the DSId of a ping's, and the number of a poll's. It says whether the bodies are new.
    pub(crate) fn take(&mut self, ds_id: Name) -> bool
        requires { (n : ℕ) → self.old.request ≡ Request.Poll n → n < 2 ^ 62 }
        ensures new { result ≡ is_new self.old.request self.old.taker }
        ensures taker { self.new.taker ≡ asks_after self.old.request self.old.taker }
        ensures ds_id { self.new.ds_id ≡ id_after self.old.request ds_id self.old.ds_id }
        ensures request { self.new.request ≡ self.old.request }
    {
        match self.request {
            Request::Ping => {
                self.ds_id = ds_id;
                false
            }
            Request::Poll(number) => matches!(self.taker.take(number), Taken::New),
            Request::Subscribe | Request::Disconnect => false,
        }
    }

    /// Goes on to the next request, to which the dial of the link that carried the one before counts. It says whether there is one.
    pub(crate) fn go_on(
        &mut self,
        alloc: Global,
        keys: Option<RandomState>,
        course: &Course<'_>,
    ) -> Result<bool, Memory>
        requires text { IsText course.now.destination.now }
        requires ds_id { IsText self.old.ds_id }
        ensures { WentOn course.now.port course.now.destination.now course.now.polls self.old self.new result }
    {
        let Some(request) = self.next(course) else {
            return Ok(false);
        };
        self.bytes = asked(
            alloc,
            keys,
            course.port,
            course.destination,
            &self.ds_id,
            request,
        )?;
        self.request = request;
        self.spent = 1;
        Ok(true)
    }
}
