ghost use Rattle.std.specs.Prelude.{◌≡◌, ◌<◌, ◌^◌, List, length, IfOk};
ghost use Rattle.amf_once.specs.Course.{start, run};
ghost use Rattle.amf_once.specs.Once.{IsOnce};
ghost use Rattle.amf_once.specs.Worlds.{IsWorldOf};

use crate::exchange::Exchange;
use crate::{Event, World};
use amf_wire::{Memory, Name};
use std::alloc::Global;

/// Opens a broker of these destinations, to which client 1 connects at moment 0, and lets the events happen one after another
/// between it and a new taker. There are fewer than 2^32 events. `Memory` comes where there is no room, and nothing else ends it.
///
/// Whatever the events lose, repeat or reorder, for each subscription of client 1 the messages that the taker took, and then
/// those of the batch that it still asks for, are exactly the messages that the broker handed out for it, in that order.
pub fn replay(alloc: Global, destinations: Vec<Name>, events: Vec<Event>) -> Result<World, Memory>
    requires { length events.items < 2 ^ 32 }

    // The world is that of the events.
    ensures world { IfOk result (λ world. IsWorldOf (run events.items (start destinations.items)) world) }

    // So each message is taken at most once and in order, and none is lost.
    ensures once { IsOnce events.items (run events.items (start destinations.items)) }
{
    let mut exchange = Exchange::new(alloc, destinations)?;
    for event in events {
        exchange.happen(alloc, event)?;
    }
    Ok(exchange.into_world())
}
