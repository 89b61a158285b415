ghost use Rattle.std.specs.Prelude.{◌≡◌, ◌≤◌, ◌&&◌, ◌||◌, not, nat_le, filter, true};
ghost use Rattle.std.specs.List.{list_all, list_any};
ghost use Rattle.amf_broker.specs.Delivery.{Message};
ghost use Rattle.amf_broker.specs.Lines.{is_reached_by};
ghost use Rattle.amf_broker.specs.Trims.{is_debt, is_owed};
ghost use Rattle.amf_broker.specs.Slots.{stands_at, passes_at, is_needed_at};

use crate::Topic;
use crate::log::Post;
use crate::place::Place;
use crate::slot::Slot;

/// The lesser of the number and of where the place starts, if a message of the topic reaches it.
fn lesser(first: u64, place: &Place, topic: &Topic) -> u64
    ensures less { result ≤ first }
    ensures before { (not (is_reached_by topic.now place.now) || nat_le result place.now.start) ≡ true }
{
    if place.is_reached_by(topic) && place.start() < first {
        return place.start();
    }
    first
}

/// The lesser of the number and of where the place there starts, if there is one that a message of the topic reaches.
fn lesser_at(first: u64, slots: &[Slot], at: usize, topic: &Topic) -> u64
    ensures less { result ≤ first }
    ensures before { passes_at (λ u. not (is_reached_by topic.now u) || nat_le result u.start) slots.now at ≡ true }
{
    if at >= slots.len() || !slots[at].kept {
        return first;
    }
    lesser(first, &slots[at].place, topic)
}

/// The least of these places that is of a live subscription of the topic, or the next message's number.
pub(crate) fn first_of(slots: &[Slot], spots: &[usize], topic: &Topic, next: u64) -> u64
    ensures { list_all (passes_at (λ u. not (is_reached_by topic.now u) || nat_le result u.start) slots.now) spots.now ≡ true }
{
    let mut first = next;
    for at in spots {
        first = lesser_at(first, slots, *at, topic);
    }
    first
}

/// Whether the place is there, of the topic, and its subscription has ended.
fn is_debt(slot: &Slot, topic: &Topic) -> bool
    ensures { result ≡ (slot.now.kept && is_debt topic.now slot.now.place) }
{
    slot.kept && slot.place.is_debt(topic)
}

/// Whether the place is there, its subscription has ended, and the message of the topic waits for its client.
fn owes(slot: &Slot, topic: &Topic, post: &Post) -> bool
    ensures { result ≡ (slot.now.kept && is_owed topic.now post.now slot.now.place) }
{
    slot.kept && slot.place.owes(topic, post)
}

/// Whether there is a place of the topic whose subscription has ended.
fn is_debt_at(slots: &[Slot], at: usize, topic: &Topic) -> bool
    ensures { result ≡ stands_at (is_debt topic.now) slots.now at }
{
    if at >= slots.len() {
        return false;
    }
    is_debt(&slots[at], topic)
}

/// Whether there is a place whose subscription has ended, for whose client the message of the topic waits.
fn owes_at(slots: &[Slot], at: usize, topic: &Topic, post: &Post) -> bool
    ensures { result ≡ stands_at (is_owed topic.now post.now) slots.now at }
{
    if at >= slots.len() {
        return false;
    }
    owes(&slots[at], topic, post)
}

/// Whether one of these places is of a subscription of the topic that has ended.
fn has_debts(slots: &[Slot], spots: &[usize], topic: &Topic) -> bool
    ensures { result ≡ list_any (stands_at (is_debt topic.now) slots.now) spots.now }
{
    spots.iter().any(|at| is_debt_at(slots, *at, topic))
}

/// These places, or none of them if none is of a subscription of the topic that has ended.
pub(crate) fn debtors<'a>(slots: &[Slot], spots: &'a [usize], topic: &Topic) -> &'a [usize]
    ensures { (m : Message) → list_any (stands_at (is_owed topic.now m) slots.now) result.now ≡ list_any (stands_at (is_owed topic.now m) slots.now) spots.now }
{
    if has_debts(slots, spots, topic) {
        return spots;
    }
    &[]
}

/// Whether the message waits for one of these subscriptions, that has ended.
fn is_owed(slots: &[Slot], spots: &[usize], topic: &Topic, post: &Post) -> bool
    ensures { result ≡ list_any (stands_at (is_owed topic.now post.now) slots.now) spots.now }
{
    spots.iter().any(|at| owes_at(slots, *at, topic, post))
}

/// Whether the message is not before `first`, or waits for a subscription that has ended.
fn is_needed(slots: &[Slot], spots: &[usize], topic: &Topic, first: u64, post: &Post) -> bool
    ensures { result ≡ is_needed_at topic.now first slots.now spots.now post.now }
{
    first <= post.number() || is_owed(slots, spots, topic, post)
}

/// Messages that are not needed go.
pub(crate) fn keep_needed(
    posts: &mut Vec<Post>,
    slots: &[Slot],
    spots: &[usize],
    topic: &Topic,
    first: u64,
)
    ensures { posts.new.items ≡ filter (is_needed_at topic.now first slots.now spots.now) posts.old.items }
{
    posts.retain(|post| is_needed(slots, spots, topic, first, post));
}
