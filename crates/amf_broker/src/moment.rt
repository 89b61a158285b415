ghost use Rattle.std.specs.Prelude.{◌≡◌, ◌==◌, true};
ghost use Rattle.std.specs.List.{list_any};
ghost use Rattle.amf_broker.specs.Machine.{later};
ghost use Rattle.amf_broker.specs.Sound.{are_in_order};

use crate::ClientId;

/// The present moment of a call, and the clients that expire at it, in order of their numbers.
#[derive(Drop)]
pub(crate) struct Moment {
    pub(crate) present: u64,
    pub(crate) expired: Vec<ClientId>,
    ghost ordered: { are_in_order expired.items ≡ true },
}

impl Moment {
    /// Whether the client expires at it.
    pub(crate) fn expires(&self, client: ClientId) -> bool
        ensures { result ≡ list_any (λ id. id == client) self.now.expired.items }
    {
        is_in(&self.expired, client)
    }
}

/// Whether the client is one of these, which stand in order of their numbers.
pub(crate) fn is_in(ids: &[ClientId], client: ClientId) -> bool
    requires { are_in_order ids.now ≡ true }
    ensures { result ≡ list_any (λ id. id == client) ids.now }
{
    ids.binary_search_by_key(&client.0, |id| id.0).is_ok()
}

/// The later of the two.
pub(crate) fn later_of(present: u64, moment: u64) -> u64
    ensures { result ≡ later present moment }
{
    if present <= moment { moment } else { present }
}
