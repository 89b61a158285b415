ghost use Rattle.std.specs.Prelude.{◌≡◌, ℕ, ◌+◌, ◌^◌, List, [], length};
ghost use Rattle.amf_broker.specs.declared.call.Call.{Call};
ghost use Rattle.amf_broker.specs.declared.reply.Answer.{Answer};
ghost use Rattle.amf_broker.specs.History.{Entry};
ghost use Rattle.amf_desk.specs.declared.closed.Closed.{Closed};
ghost use Rattle.amf_desk.specs.Histories.{own, Begins, NoneBy};
ghost use Rattle.amf_desk.specs.Passes.{Held, Called, AddsOwn, Looked, JoinedTo, ClosedAs};

/// Of a pass's own entries in what it has seen, a call adds one at the end, and a call without an answer none. A pass that was
/// split off has none, and a history that goes on from another goes on from each pass's own entries.
pub fn own_entries()
    ensures called { (p q : Held) (moment : ℕ) (call : Call) (answer : Answer) → Called p moment call answer q → AddsOwn p moment call answer q }
    ensures looked { (p q : Held) → Looked p q → own p.number q.seen ≡ own p.number p.seen }
    ensures fresh { (n : ℕ) (history : List Entry) → NoneBy n history → own n history ≡ [] }
    ensures begins { (n : ℕ) (earlier history : List Entry) → Begins earlier history → Begins (own n earlier) (own n history) }
{}

/// What a pass has seen only grows at its end, and after a join it goes on from what both had seen.
pub fn seen_goes_on()
    ensures called { (p q : Held) (moment : ℕ) (call : Call) (answer : Answer) → Called p moment call answer q → Begins p.seen q.seen }
    ensures looked { (p q : Held) → Looked p q → Begins p.seen q.seen }
    ensures joined { (p from q : Held) → JoinedTo p from q → Begins p.seen q.seen × Begins from.seen q.seen }
{}

/// Where the pass that closes a desk has the budget of all calls that it has not seen, it has seen all that were made.
pub fn all_was_seen()
    ensures { (p : Held) (told : Closed) (closed : ClosedAs p told) → length p.seen + p.budget ≡ 2 ^ 62 → closed.history ≡ p.seen }
{}
