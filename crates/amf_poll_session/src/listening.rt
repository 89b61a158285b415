ghost use Rattle.std.specs.Prelude.{◌≡◌, ◌≤◌, ◌<◌, ◌^◌, false, length};
ghost use Rattle.amf_wire.specs.Text.{IsText};
ghost use Rattle.amf_poll_session.specs.Steps.{IsReady, UsesDial};
ghost use Rattle.amf_poll_session.specs.Listened.{Listens, CountsOutput, IsNumbered};

use crate::ListenEnd;
use crate::over_link::over_link;
use crate::session::{Course, Session};
use amf_client::ReplyBuffer;
use amf_io::{Dial, OpenEnd, Sink};
use amf_wire::Name;
use std::alloc::Global;
use std::hash::RandomState;

/// Dials once for the request of the session, sends over the link what can be sent, and gives it back.
fn dialled<D: Dial, O: Sink>(
    alloc: Global,
    keys: Option<RandomState>,
    dial: &mut D,
    course: &Course<'_>,
    session: &mut Session,
    out: &mut O,
) -> ListenEnd
    requires destination { IsText course.now.destination.now }
    requires few { course.now.polls ≤ 1000000 }
    requires spent { session.old.spent ≤ 2 }
    requires ready { IsReady course.now.polls session.old.request session.old.taker }
    requires text { IsText session.old.ds_id }
    requires none_out { D.is_out dial.old ≡ false }
    ensures dials { UsesDial D.Dial D.Link.Link O.Sink course.now dial.old dial.new session.old session.new out.old out.new result }
    ensures none_out { D.is_out dial.new ≡ false }
    ensures told { O.tells out.new → O.tells out.old }
    ensures output { CountsOutput (O.faults out.old) (O.faults out.new) result }
    ensures numbered { IsNumbered result }
{
    let Ok(mut buffer) = ReplyBuffer::new(alloc) else {
        return ListenEnd::Memory;
    };
    match dial.dial(course.port) {
        Ok(mut link) => {
            session.spent += 1;
            let end = over_link(alloc, keys, &mut link, &mut buffer, course, session, out);
            dial.back(link);
            end
        }
        Err(OpenEnd::Failed) => {
            session.spent += 1;
            ListenEnd::LinkFault
        }
        Err(OpenEnd::Memory) => ListenEnd::Memory,
    }
}

/// Listens to a destination of the gateway at this port of 127.0.0.1: a ping, a subscribe, so many numbered polls and a disconnect, one
/// after the other. The canonical AMF 3 spelling of each delivered body is written to the output as its batch is taken, in order.
/// The destination is a text of at most 65,535 bytes, and there are from 1 to 1,000,000 polls. No link of the dial is out.
///
/// A poll or the disconnect whose link is lost, or whose dial fails, is sent again over another link, a poll with the same number. It
/// gives up where three dials were spent on such a request; that of the link that carried the request before is one of them.
/// Each link is given back. `Done` comes once the disconnect is answered. `Fault` and `BadReply` are what a reply came to
/// (`amf_client::read_result` has the numbers), number 6 also where it is no answer to the request. With `LinkFault` the last dial
/// failed or a call of the last link did, and with `WriteFault` a write of the output. The memory that it takes does not grow with the polls.
///
/// Texts are looked up by fixed keys, so whoever knows them can send replies that take long: `listen_keyed` is passed others.
pub fn listen<D: Dial, O: Sink>(
    alloc: Global,
    dial: &mut D,
    out: &mut O,
    port: u16,
    destination: &Name,
    polls: u64,
) -> ListenEnd
    requires text { IsText destination.now }
    requires short { length destination.now < 2 ^ 16 }
    requires some { 1 ≤ polls }
    requires few { polls ≤ 1000000 }
    requires none_out { D.is_out dial.old ≡ false }
    ensures listened { Listens D.Dial D.Link.Link O.Sink port destination.now polls dial.old dial.new out.old out.new result }
    ensures none_out { D.is_out dial.new ≡ false }
    ensures told { O.tells out.new → O.tells out.old }
    ensures output { CountsOutput (O.faults out.old) (O.faults out.new) result }
    ensures numbered { IsNumbered result }
{
    listen_keyed(alloc, None, dial, out, port, destination, polls)
}

/// Does what `listen` does, with texts that are looked up by these keys, or by fixed ones where there are none. What it comes to is
/// the same for all keys.
pub fn listen_keyed<D: Dial, O: Sink>(
    alloc: Global,
    keys: Option<RandomState>,
    dial: &mut D,
    out: &mut O,
    port: u16,
    destination: &Name,
    polls: u64,
) -> ListenEnd
    requires text { IsText destination.now }
    requires short { length destination.now < 2 ^ 16 }
    requires some { 1 ≤ polls }
    requires few { polls ≤ 1000000 }
    requires none_out { D.is_out dial.old ≡ false }
    ensures listened { Listens D.Dial D.Link.Link O.Sink port destination.now polls dial.old dial.new out.old out.new result }
    ensures none_out { D.is_out dial.new ≡ false }
    ensures told { O.tells out.new → O.tells out.old }
    ensures output { CountsOutput (O.faults out.old) (O.faults out.new) result }
    ensures numbered { IsNumbered result }
{
    let course = Course {
        port,
        destination,
        polls,
    };
    let Ok(mut session) = Session::new(alloc, keys, &course) else {
        return ListenEnd::Memory;
    };
    for _ in 0..3 * (polls + 3) {
        let end = dialled(alloc, keys, dial, &course, &mut session, out);
        let again = session.asks_again(&end);
        if !again {
            return end;
        }
    }
    ListenEnd::LinkFault
}
