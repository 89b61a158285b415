ghost use Rattle.std.specs.Prelude.{◌≡◌, ◌==◌, ◌≤◌, IfOk, OnOk, nat_lt, map, length, position};
ghost use Rattle.std.specs.List.{list_any, position_or_len};
ghost use Rattle.amf_broker.specs.Lines.{put, put_all, waits, is_covered, delivered};
ghost use Rattle.amf_broker.specs.Members.{raised, covered_in, logs_of, is_among, is_waited, remains};

use crate::ended::Ended;
use crate::log::Post;
use crate::logs::Logs;
use crate::place::Place;
use crate::{ClientId, Deliveries, Delivery, SubId};
use amf_wire::Memory;
use std::alloc::Global;

/// Where the first delivery of a later message stands, if there is one.
fn first_later(queue: &[Delivery], number: u64) -> Option<usize>
    ensures { result ≡ position (λ d. nat_lt number d.number) queue.now }
{
    queue.iter().position(|other| number < other.number)
}

/// Where a delivery of this number goes: before the first of a later message.
fn place_for(queue: &[Delivery], number: u64) -> usize
    ensures place { result ≡ position_or_len (λ d. nat_lt number d.number) queue.now }
    ensures bound { result ≤ length queue.now }
{
    match first_later(queue, number) {
        Some(place) => place,
        None => queue.len(),
    }
}

/// Puts the delivery among the others, in order of message numbers and after those of its number.
fn put_in(queue: &mut Vec<Delivery>, delivery: Delivery) -> Result<(), Memory>
    ensures { OnOk result (queue.new.items ≡ put delivery queue.old.items) }
{
    let place = place_for(queue, delivery.number);
    queue.insert(place, delivery)?;
    Ok(())
}

/// The message as it waits for the subscription.
fn delivery_of(place: &Place, post: &Post) -> Result<Delivery, Memory>
    ensures { IfOk result (λ delivery. delivery ≡ delivered place.now.id post.now) }
{
    let message = post.message().share()?;
    Ok(Delivery {
        sub: place.id(),
        number: post.number(),
        message,
    })
}

/// Puts the message, which waits for the subscription, among the others.
fn put_post(queue: &mut Vec<Delivery>, place: &Place, post: &Post) -> Result<(), Memory>
    ensures { OnOk result (queue.new.items ≡ put (delivered place.now.id post.now) queue.old.items) }
{
    let delivery = delivery_of(place, post)?;
    put_in(queue, delivery)
}

/// Puts what waits for the subscription among the others.
#[tactic(auto, using(crate::proofs::Merges::put_all_more))]
pub(crate) fn put_covered(
    queue: &mut Vec<Delivery>,
    place: &Place,
    posts: &[Post],
    next: u64,
) -> Result<(), Memory>
    ensures { OnOk result (queue.new.items ≡ put_all (covered_in next place.now posts.now) queue.old.items) }
{
    for post in posts {
        if place.covers(post, next) {
            put_post(queue, place, post)?;
        }
    }
    Ok(())
}

/// Whether the subscription is live, or something waits for it.
fn is_waited(place: &Place, logs: &Logs, next: u64) -> bool
    ensures { result ≡ is_waited (logs_of logs.now) (raised next place.now) }
{
    place.is_live() || covers_any(place, logs.posts_of(place.topic()), next)
}

/// Whether one of the messages waits for the subscription.
fn covers_any(place: &Place, posts: &[Post], next: u64) -> bool
    ensures { result ≡ list_any (is_covered (raised next place.now).start (raised next place.now).stop) posts.now }
{
    posts.iter().any(|post| place.covers(post, next))
}

/// Whether the place is not the subscription's, or the subscription is live, or something waits for it.
pub(crate) fn remains_sub(place: &Place, logs: &Logs, sub: SubId, next: u64) -> bool
    ensures { result ≡ remains (λ id. id == sub) (logs_of logs.now) next place.now }
{
    place.id() != sub || is_waited(place, logs, next)
}

/// Whether the place is none of these subscriptions', or its subscription is live, or something waits for it.
pub(crate) fn remains(place: &Place, logs: &Logs, ended: &Ended, next: u64) -> bool
    ensures { result ≡ remains (is_among ended.now.subs.items) (logs_of logs.now) next place.now }
{
    !ended.has(place.id()) || is_waited(place, logs, next)
}

/// These deliveries once more, which share their messages.
pub(crate) fn shared(alloc: Global, deliveries: &[Delivery]) -> Result<Deliveries, Memory>
    ensures { IfOk result (λ all. all ≡ deliveries.now) }
{
    let mut all = Vec::new(alloc);
    for delivery in deliveries {
        all.push(Delivery {
            sub: delivery.sub,
            number: delivery.number,
            message: delivery.message.share()?,
        })?;
    }
    Ok(Deliveries::of_vec(all))
}
