//! What the desk's table knows of each seat, and the rule of the table.
use crate::counted::CountedBroker;
use amf_broker::{Answer, Call};
use amf_wire::Name;
use atomic_table::TableRule;
use std::collections::LinkedList;
use std::marker::Model;
use std::snapshot::Snapshot;

/// An entry of the history: a call, its moment and its answer, and the number of the pass that made it.
pub struct Entry {
    pub caller: u64,
    pub moment: u64,
    pub call: Call,
    pub answer: Answer,
}

impl Model for Entry {
    ghost use Rattle.amf_broker.specs.History.{Entry};

    ghost Value = { Entry };

    ghost view = { λ e. record { caller = e.caller; moment = e.moment; call = e.call; answer = e.answer } };
}

/// Where a seat stands in a call.
pub enum Stage {
    /// It makes none.
    Idle,
    /// It holds this ticket. Tickets are counted without end, and the table's words have them modulo 2^64.
    Waits(u64),
    /// Its ticket is served.
    Turn(u64),
    /// It took in a pass that had seen this.
    Joined(LinkedList<Entry>),
    /// Another took it in.
    Spent,
}

/// What a seat knows. No value of it is ever made: proofs alone speak of it, and its numbers have no bound.
pub struct View {
    pub destinations: LinkedList<Name>,
    pub number: u64,
    pub seen: LinkedList<Entry>,
    pub budget: u64,
    pub splits: u64,
    pub stage: Stage,
}

/// The rule of the desk's table, over the destinations that it was opened with.
pub struct DeskRule;

impl TableRule<Option<CountedBroker>, View, Snapshot<Vec<Name>>> for DeskRule {
    ghost use Rattle.amf_desk.specs.Rule.{Explained, first_view};

    ghost holds = { λ key. Explained key.value.items };

    ghost first = { λ key. first_view key.value.items };
}
