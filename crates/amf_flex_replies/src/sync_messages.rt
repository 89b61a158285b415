//! The messages of a sync.

ghost use Rattle.std.specs.Prelude.{◌≡◌, ℕ, ◌+◌, ◌∷◌, ◌++◌, [], ◌≤◌, List, length, map, decimal, IfOk, OnOk, IfSome};
ghost use Rattle.std.specs.List.{AllByRecursion};
ghost use Rattle.amf_graph.specs.Bounds.{weight};
ghost use Rattle.amf_graph.specs.Building.{no_arena};
ghost use Rattle.amf_graph.specs.Graph.{Graph};
ghost use Rattle.amf_graph.specs.Isomorphic.{Isomorphic};
ghost use Rattle.amf_graph.specs.Rooted.{content};
ghost use Rattle.amf_graph.specs.declared.limits.TheConstants.{MAX_COUNT};
ghost use Rattle.flex_msgs.specs.Answers.{delivered_graph, invalidate_graph, sync_graph};
ghost use Rattle.flex_msgs.specs.Built.{IsReply, IsShortReply, HasRoomFor, IsStored as HoldsStored};
ghost use Rattle.amf_broker.specs.declared.limits.TheConstants.{MAX_QUEUED, MAX_SUBS};
ghost use Rattle.amf_flex_replies.specs.Batching.{Adds, AddsDelivery, GrewWithin, HoldsAll, IsSync, ReadsAll};

use crate::stored::read_stored;
use amf_answer_plan::messages::finished;
use amf_answer_plan::numbers::numeral;
use amf_broker::{Delivery, MAX_MESSAGE, SubId};
use amf_graph::{Builder, Rooted, Value};
use amf_service::kept;
use amf_wire::Memory;
use flex_msgs::{Reply, delivered, invalidate, sync};
use std::alloc::Global;
use std::hash::RandomState;

/// Messages that are added one after another, with their roots.
#[derive(Drop)]
struct Batch {
    builder: Builder,
    values: Vec<Value>,
}

impl Batch {
    /// No messages; their texts are looked up by the keys. It gives up where there is no memory.
    fn new(alloc: Global, keys: Option<RandomState>) -> Result<Batch, Memory>
        ensures holds { IfOk result (λ batch. HoldsAll batch []) }
        ensures builder { IfOk result (λ batch. batch.builder ≡ no_arena) }
        ensures values { IfOk result (λ batch. batch.values.items ≡ []) }
    {
        Ok(Batch {
            builder: Builder::keyed(alloc, keys)?,
            values: Vec::new(alloc),
        })
    }

    /// Adds a stored message as it is delivered to a subscription. It gives up where there is no memory.
    fn deliver(&mut self, alloc: Global, message: &Rooted, sub: SubId) -> Result<(), Memory>
        requires stored { HoldsStored message.now }
        requires light { weight message.now.arena ≤ MAX_MESSAGE }
        requires room { HasRoomFor self.old.builder 65600 32800 32800 }
        ensures adds { OnOk result (Adds self.old self.new (delivered_graph (decimal sub) (content message.now) ∷ [])) }
        ensures grew { OnOk result (GrewWithin self.old.builder self.new.builder 65600 32800 32800) }
        ensures count { OnOk result (length self.new.values.items ≡ length self.old.values.items + 1) }
    {
        message.is_finished();
        self.builder.is_built();
        let client = numeral(alloc, sub.0)?;
        let value = kept(delivered(alloc, &mut self.builder, message, &client))?;
        self.values.push(value)?;
        Ok(())
    }

    /// Adds the message of a delivery, if it is a stored one, and says whether it is. It gives up where there is no memory.
    fn add(
        &mut self,
        alloc: Global,
        keys: Option<RandomState>,
        delivery: &Delivery,
    ) -> Result<bool, Memory>
        requires short { length delivery.now.message ≤ MAX_MESSAGE }
        requires room { HasRoomFor self.old.builder 65600 32800 32800 }
        ensures adds { IfOk result (λ stored. AddsDelivery delivery.now stored self.old self.new) }
        ensures grew { OnOk result (GrewWithin self.old.builder self.new.builder 65600 32800 32800) }
        ensures count { OnOk result (length self.new.values.items ≤ length self.old.values.items + 1) }
    {
        match read_stored(alloc, keys, delivery.message.as_bytes())? {
            Some(message) => {
                self.deliver(alloc, &message, delivery.sub)?;
                Ok(true)
            }
            None => Ok(false),
        }
    }

    /// Adds the invalidate of a subscription that ended. It gives up where there is no memory.
    fn end(&mut self, alloc: Global, reply: &Reply) -> Result<(), Memory>
        requires texts { IsReply reply.now }
        requires short { IsShortReply reply.now }
        requires room { HasRoomFor self.old.builder 17 2 2 }
        ensures adds { OnOk result (Adds self.old self.new (invalidate_graph reply.now ∷ [])) }
        ensures grew { OnOk result (GrewWithin self.old.builder self.new.builder 17 2 2) }
        ensures count { OnOk result (length self.new.values.items ≡ length self.old.values.items + 1) }
    {
        let value = kept(invalidate(alloc, &mut self.builder, reply))?;
        self.values.push(value)?;
        Ok(())
    }

    /// Adds the invalidates of all subscriptions that ended. It gives up where there is no memory.
    fn end_all(&mut self, alloc: Global, replies: &[Reply]) -> Result<(), Memory>
        requires few { length replies.now ≤ MAX_SUBS }
        requires texts { AllByRecursion IsReply replies.now }
        requires short { AllByRecursion IsShortReply replies.now }
        requires room { HasRoomFor self.old.builder 272 32 32 }
        ensures adds { OnOk result (Adds self.old self.new (map invalidate_graph replies.now)) }
        ensures grew { OnOk result (GrewWithin self.old.builder self.new.builder 272 32 32) }
        ensures count { OnOk result (length self.new.values.items ≤ length self.old.values.items + MAX_SUBS) }
    {
        for reply in replies {
            self.end(alloc, reply)?;
        }
        Ok(())
    }

    /// The sync with these messages. It gives up where there is no memory.
    fn finish(self, alloc: Global, reply: &Reply) -> Result<Rooted, Memory>
        requires texts { IsReply reply.now }
        requires short { IsShortReply reply.now }
        requires holds { (gs : List Graph) × HoldsAll self gs }
        requires few { length self.values.items ≤ MAX_COUNT }
        requires room { HasRoomFor self.builder 17 2 3 }
        ensures { IfOk result (λ graph. (gs : List Graph) → HoldsAll self gs → Isomorphic (sync_graph reply.now gs) (content graph)) }
    {
        let Batch {
            mut builder,
            values,
        } = self;
        let message = kept(sync(alloc, &mut builder, reply, values))?;
        Ok(finished(builder, message))
    }

    /// The sync with these messages, and then with the invalidates of all subscriptions that ended. It gives up where there is no
    /// memory.
    fn sync_with(
        mut self,
        alloc: Global,
        reply: &Reply,
        endings: &[Reply],
    ) -> Result<Rooted, Memory>
        requires texts { IsReply reply.now }
        requires short { IsShortReply reply.now }
        requires few_endings { length endings.now ≤ MAX_SUBS }
        requires ending_texts { AllByRecursion IsReply endings.now }
        requires short_endings { AllByRecursion IsShortReply endings.now }
        requires holds { (gs : List Graph) × HoldsAll self gs }
        requires few { length self.values.items ≤ MAX_QUEUED }
        requires room { HasRoomFor self.builder 289 34 35 }
        ensures { IfOk result (λ graph. (gs : List Graph) → HoldsAll self gs → Isomorphic (sync_graph reply.now (gs ++ map invalidate_graph endings.now)) (content graph)) }
    {
        self.end_all(alloc, endings)?;
        self.finish(alloc, reply)
    }
}

/// The messages of the deliveries, or none where one of them is no stored message. It gives up where there is no memory.
fn add_all(
    alloc: Global,
    keys: Option<RandomState>,
    deliveries: &[Delivery],
) -> Result<Option<Batch>, Memory>
    requires few { length deliveries.now ≤ MAX_QUEUED }
    requires short { AllByRecursion (λ d. length d.message ≤ MAX_MESSAGE) deliveries.now }
    ensures reads { IfOk result (λ batch. ReadsAll deliveries.now batch) }
    ensures room { IfOk result (λ batch. IfSome batch (λ batch. HasRoomFor batch.builder 289 34 35)) }
    ensures count { IfOk result (λ batch. IfSome batch (λ batch. length batch.values.items ≤ MAX_QUEUED)) }
{
    let mut batch = Batch::new(alloc, keys)?;
    let mut all_stored = true;
    for delivery in deliveries {
        let is_stored = batch.add(alloc, keys, delivery)?;
        all_stored &= is_stored;
    }
    if all_stored {
        Ok(Some(batch))
    } else {
        Ok(None)
    }
}

/// The sync of these deliveries and of the invalidates with these values, or none where a delivery's message is no stored one. It
/// gives up where there is no memory.
pub fn sync_of(
    alloc: Global,
    keys: Option<RandomState>,
    reply: &Reply,
    deliveries: &[Delivery],
    endings: &[Reply],
) -> Result<Option<Rooted>, Memory>
    requires texts { IsReply reply.now }
    requires short { IsShortReply reply.now }
    requires few { length deliveries.now ≤ MAX_QUEUED }
    requires small { AllByRecursion (λ d. length d.message ≤ MAX_MESSAGE) deliveries.now }
    requires few_endings { length endings.now ≤ MAX_SUBS }
    requires ending_texts { AllByRecursion IsReply endings.now }
    requires short_endings { AllByRecursion IsShortReply endings.now }
    ensures { IfOk result (λ graph. IsSync reply.now deliveries.now (map invalidate_graph endings.now) graph) }
{
    match add_all(alloc, keys, deliveries)? {
        Some(batch) => Ok(Some(batch.sync_with(alloc, reply, endings)?)),
        None => Ok(None),
    }
}
