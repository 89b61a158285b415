ghost use Rattle.std.specs.Prelude.{◌≡◌};

use amf_graph::{TextId, Value};
use amf_iso::LastOrder;

/// No more pairs than this have their room kept.
const MOST_PAIRS: usize = 256;

/// The order of the names of the pairs that were put in order last, and room for the pairs of the next node.
#[derive(Drop)]
pub(crate) struct Rooms {
    pub(crate) order: LastOrder,
    pub(crate) pairs: Vec<(TextId, Value)>,
}

impl Rooms {
    /// Takes back pairs that are no longer needed, as room for the next.
    pub(crate) fn take_back(&mut self, pairs: Vec<(TextId, Value)>)
        ensures { self.new.order ≡ self.old.order }
    {
        if pairs.capacity() > MOST_PAIRS {
            return;
        }
        if self.pairs.capacity() == 0 {
            self.pairs = pairs;
        } else {
            self.order.take_back(pairs);
        }
    }
}
