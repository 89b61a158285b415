//! What each step on the table tells. These types are for the proofs alone.
ghost use Rattle.amf_desk.specs.Rule.{spent_view};
ghost use Rattle.amf_desk.specs.Steps.{Takes, TakesNext, Comes, Counts, Gives, Agrees, left_of, right_of, joined};

use crate::counted::CountedBroker;
use crate::view::View;
use atomic_table::{Join, Play, Split};
use std::marker::{Brand, PhantomData};

/// Which call is made, and at which moment. Each call of a program picks it.
pub(crate) trait Told {
    ghost use Rattle.std.specs.Prelude.{ℕ};
    ghost use Rattle.amf_broker.specs.declared.call.Call.{Call};

    ghost moment: { ℕ };

    ghost call: { Call };
}

impl Told for Brand {
    ghost use Rattle.amf_broker.specs.declared.call.Call.TheVariants.{Connect};

    ghost moment = { 0 };

    ghost call = { Connect };
}

/// How much of a budget is split off. Each split of a program picks it.
pub(crate) trait Amount {
    ghost use Rattle.std.specs.Prelude.{ℕ};

    ghost share: { ℕ };
}

impl Amount for Brand {
    ghost share = { 0 };
}

pub(crate) struct Take;

impl Play<Option<CountedBroker>, View> for Take {
    ghost then = { Takes };
}

pub(crate) struct TakeNext;

impl Play<Option<CountedBroker>, View> for TakeNext {
    ghost then = { TakesNext };
}

pub(crate) struct Come;

impl Play<Option<CountedBroker>, View> for Come {
    ghost then = { Comes };
}

pub(crate) struct Count<E> {
    of: PhantomData<E>,
}

impl<E: Told> Play<Option<CountedBroker>, View> for Count<E> {
    ghost then = { Counts E.moment E.call };
}

pub(crate) struct Give;

impl Play<Option<CountedBroker>, View> for Give {
    ghost then = { Gives };
}

pub(crate) struct Agree;

impl Play<Option<CountedBroker>, View> for Agree {
    ghost then = { Agrees };
}

pub(crate) struct Cut<N> {
    of: PhantomData<N>,
}

impl<N: Amount> Split<View> for Cut<N> {
    ghost left = { left_of N.share };

    ghost right = { right_of N.share };
}

pub(crate) struct Merge;

impl Join<View> for Merge {
    ghost both = { joined };

    ghost spent = { spent_view };
}
