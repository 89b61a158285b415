ghost use Rattle.std.specs.Prelude.{◌≡◌, ◌==◌, true};
ghost use Rattle.std.specs.List.{list_any};
ghost use Rattle.amf_broker.specs.Sound.{are_in_order};

use crate::SubId;

/// The subscriptions that a publish ended, in order of their numbers.
#[derive(Drop)]
pub(crate) struct Ended {
    pub(crate) subs: Vec<SubId>,
    ghost ordered: { are_in_order subs.items ≡ true },
}

impl Ended {
    /// Whether the subscription is one of these.
    pub(crate) fn has(&self, sub: SubId) -> bool
        ensures { result ≡ list_any (λ id. id == sub) self.now.subs.items }
    {
        self.subs.binary_search_by_key(&sub.0, |id| id.0).is_ok()
    }
}
