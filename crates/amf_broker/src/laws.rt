ghost use Rattle.std.specs.Prelude.{◌≡◌, ℕ, ◌+◌, List, [], length};
ghost use Rattle.amf_broker.specs.declared.call.Call.{Call};
ghost use Rattle.amf_broker.specs.State.{State, first};
ghost use Rattle.amf_broker.specs.Machine.{after};
ghost use Rattle.amf_broker.specs.History.{Entry, Leaves, then_call};
ghost use Rattle.amf_broker.specs.Delivery.{DeliveryHolds};

/// The law of delivery: over every legal history, what a subscription got and what rests for it are what was due to it,
/// in order, as long as its client neither disconnects nor expires. Of a client that is gone it got a beginning of what was due.
pub fn delivery_holds()
    ensures { DeliveryHolds }
{}

/// The empty history leaves the first state. A legal history goes on by the machine's answer to any call, and each entry counts as one call.
pub fn entries_count()
    ensures begins { (names : List (List ℕ)) → Leaves [] (first names) }
    ensures goes_on { (history : List Entry) (s : State) (by moment : ℕ) (call : Call) → Leaves history s → Leaves (then_call history s by moment call) (after s moment call) }
    ensures counts { (s : State) (moment : ℕ) (call : Call) → (after s moment call).calls ≡ s.calls + 1 }
    ensures destinations { (s : State) (moment : ℕ) (call : Call) → (after s moment call).board.destinations ≡ s.board.destinations }
    ensures length { (history : List Entry) (s : State) → Leaves history s → s.calls ≡ length history }
{}
