//! Two seats of one, and one of two.
ghost use Rattle.std.specs.Prelude.{◌≡◌, ◌≢◌, ◌≤◌, ◌⊎◌, []};
ghost use Rattle.amf_desk.specs.declared.view.Stage.TheVariants.{Idle};
ghost use Rattle.amf_desk.specs.Histories.{Begins};
ghost use Rattle.amf_desk.specs.Steps.{Sound, left_of, right_of, joined, agreed};

use crate::desk::Desk;
use crate::pass::Place;
use crate::plays::{Agree, Amount, Cut, Merge};

impl Desk {
    /// Splits off a seat with a share of the budget.
    pub(crate) fn cut<N: Amount>(&self, seat: &mut Place, share: u64) -> Place
        requires own { seat.old.table_id ≡ self.now }
        requires idle { (seat.old.me.0.stage ≡ Idle) × (seat.old.me.0.number ≡ 0) }
        requires share { (N.share ≡ share) × (share ≤ seat.old.me.0.budget) }
        ensures own { (seat.new.table_id ≡ seat.old.table_id) × (seat.new.id ≡ seat.old.id) × (result.table_id ≡ seat.old.table_id) }
        ensures left { seat.new.me ≡ (left_of share seat.old.me.0, seat.old.me.1) }
        ensures right { result.me ≡ (right_of share seat.old.me.0, []) }
    {
        self.table.shared.split_seat::<Cut<N>>(seat)
    }

    /// Takes in a seat. What the two had seen lie on one line, since both are beginnings of the history.
    pub(crate) fn merge(&self, seat: &mut Place, other: Place)
        requires own { (seat.old.table_id ≡ self.now) × (other.table_id ≡ self.now) }
        requires idle { (seat.old.me.0.stage ≡ Idle) × (other.me.0.stage ≡ Idle) × (other.me.1 ≡ []) }
        requires second { other.me.0.number ≢ 0 }
        ensures own { (seat.new.table_id ≡ seat.old.table_id) × (seat.new.id ≡ seat.old.id) }
        ensures both { seat.new.me ≡ (agreed (joined seat.old.me.0 other.me.0) other.me.0.seen, seat.old.me.1) }
        ensures line { Begins seat.old.me.0.seen other.me.0.seen ⊎ Begins other.me.0.seen seat.old.me.0.seen }
        ensures sound { Sound seat.new.me.0 }
    {
        self.table.shared.join_seat::<Merge>(seat, other);
        self.table.shared.load::<Agree>(seat, 0);
    }
}
