//! How a link is served at a desk.

ghost use Rattle.std.specs.Prelude.{◌≡◌, ◌+◌, ◌-◌, ◌^◌, min, Some};
ghost use Rattle.amf_answer_plan.specs.Services.{services_of};
ghost use Rattle.amf_gateway.specs.Handed.{CountsCalls};
ghost use Rattle.amf_gateway.specs.ServesLink.{end_of, most_unanswered, WasServed};
ghost use Rattle.amf_answer_plan.specs.declared.outside.Unanswered.TheVariants.{Spent};
ghost use Rattle.amf_answer_plan.specs.Serving.{spent};
ghost use Rattle.amf_gateway.specs.WorkerSteps.{unknown};

use crate::at_hand::AtHand;
use crate::caller::Caller;
use crate::links::{LinkEnd, answer_link};
use amf_answer_plan::outside::Unanswered;
use amf_desk::{Desk, Pass};
use amf_io::{Gate, Hall, Link};
use amf_service::Registry;
use std::alloc::Global;
use std::sync::Wait;

/// Serves a link: its requests are answered one after the other, at most 1,000, each before the next is read. Each call of the
/// desk is told to the gate as one of this worker, with its number, and counted in `calls` up to 2^64 - 1. The desk is that of
/// the pass.
///
/// `Closed`, `Refused` and `Truncated` say that all was answered. `ReadFault` and `WriteFault` come only where the link failed on
/// that side: the link is read only while the bytes so far decide nothing, and nothing is begun behind an answer that was not taken. `Spent`
/// comes only where a call was asked for and the pass might make no more, and `Memory` where there is no room. After a call without an
/// answer no other is made, and no moment and no word is taken but those for what was begun.
///
/// Readers and writers look texts up by fixed keys, so whoever knows them can send a request that takes long: `serve_link_keyed` is
/// passed others.
pub fn serve_link<R: Wait, L: Link, A: Hall, G: Gate>(
    rt: &R,
    alloc: Global,
    link: &mut L,
    registry: &Registry,
    desk: &Desk,
    pass: &mut Pass,
    aid: &mut A,
    gate: &G,
    worker: u32,
    calls: &mut u64,
) -> LinkEnd
    requires { pass.old.desk ≡ desk.now }
    ensures served { WasServed L.Link A.Hall (services_of registry.now knows gives) pass.old pass.new aid.old aid.new link.old link.new (end_of result) }
    ensures calls { CountsCalls (most_unanswered (end_of result)) calls.old calls.new (pass.old.budget - pass.new.budget) }
    ensures asked { end_of result ≡ spent → calls.new ≡ min (calls.old + (pass.old.budget + 1)) (2 ^ 64 - 1) }
{
    let at = AtHand {
        rt,
        alloc,
        keys: None,
        registry,
        desk,
        gate,
        worker,
    };
    serve_link_keyed(&at, link, pass, aid, calls)
}

/// Does what `serve_link` does, with what the worker has at hand: readers and writers look texts up by its keys, or by fixed ones where there
/// are none. What is answered is the same for all keys.
pub fn serve_link_keyed<R: Wait, L: Link, A: Hall, G: Gate>(
    at: &AtHand<'_, R, G>,
    link: &mut L,
    pass: &mut Pass,
    aid: &mut A,
    calls: &mut u64,
) -> LinkEnd
    requires { pass.old.desk ≡ at.now.desk.now }
    ensures served { WasServed L.Link A.Hall (services_of at.now.registry.now knows gives) pass.old pass.new aid.old aid.new link.old link.new (end_of result) }
    ensures calls { CountsCalls (most_unanswered (end_of result)) calls.old calls.new (pass.old.budget - pass.new.budget) }
    ensures asked { end_of result ≡ spent → calls.new ≡ min (calls.old + (pass.old.budget + 1)) (2 ^ 64 - 1) }
{
    let _before = *calls;
    let mut caller = Caller {
        pass,
        aid,
        calls,
        at,
        unanswered: None,
    };
    let end = answer_link(at.alloc, &mut caller, at.registry, link);
    spent_or_memory(end, caller.unanswered)
}

/// How a link ended that was not answered whole and had no fault: for want of calls exactly where the desk had none left for a call.
fn spent_or_memory(end: LinkEnd, unanswered: Option<Unanswered>) -> LinkEnd
    ensures same { unknown (end_of result) ≡ unknown (end_of end) }
    ensures spent { end_of result ≡ spent → unanswered ≡ Some Spent }
{
    match (end, unanswered) {
        (LinkEnd::Spent | LinkEnd::Memory, Some(Unanswered::Spent)) => LinkEnd::Spent,
        (LinkEnd::Spent, _) => LinkEnd::Memory,
        (end, _) => end,
    }
}
