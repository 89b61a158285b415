ghost use Rattle.std.specs.Prelude.{◌≡◌, ◌↔◌, ◌+◌, ◌<◌, ◌≤◌, ◌^◌, true, false, length, IsTrue, IfOk};
ghost use Rattle.amf_graph.specs.Arena.{Names, value_content};
ghost use Rattle.amf_graph.specs.Order.{IsOrder};
ghost use Rattle.amf_graph.specs.Reached.{IsReachedValue};
ghost use Rattle.amf_graph.specs.Rooted.{content};
ghost use Rattle.amf3_spelling.specs.Tables.{Tables};
ghost use Rattle.amf0_write.specs.Meetings.{IsFirstReason};
ghost use Rattle.amf0_write.specs.Searched.{HasLackBehind, IsLackBehind, AreMetBefore, MeetingLacks};
ghost use Rattle.amf0_write.specs.Searched.{IsBefore, Notes, IsEntered, SearchesNode, SearchesAll, unmet, places_end};
ghost use Rattle.amf_graph.specs.Bounds.{count_end};

use crate::meeting::Meeting;
use crate::nodes::{enters, has_no_form, has_short_names, is_loose};
use crate::values::FAR;
use amf_graph::{Lack, LackKind, NodeId, Rooted, Value};
use amf_iso::{Numbering, values_met};
use amf_wire::Memory;
use std::alloc::Global;

/// The first reason why a node that was never met has no spelling, if there is one.
fn new_reason(node: NodeId, graph: &Rooted) -> Option<LackKind>
    requires { node.0 < length graph.now.arena.nodes }
    ensures { IsFirstReason (MeetingLacks (content graph.now) node.0 Meeting.Never) result }
{
    let view = graph.node(node);
    if has_no_form(node, view, graph) {
        Some(LackKind::NoForm)
    } else if !has_short_names(node, view, graph) {
        Some(LackKind::LongName)
    } else {
        None
    }
}

/// The first reason why a node that is met, and was met so, has no spelling, if there is one.
fn reason(node: NodeId, meeting: Meeting, graph: &Rooted) -> Option<LackKind>
    requires { node.0 < length graph.now.arena.nodes }
    ensures { IsFirstReason (MeetingLacks (content graph.now) node.0 meeting) result }
{
    match meeting {
        Meeting::Never => new_reason(node, graph),
        Meeting::Alone => {
            if is_loose(node, graph) || enters(node, graph) {
                Some(LackKind::Shared)
            } else {
                None
            }
        }
        Meeting::At(place) => {
            if place >= FAR {
                Some(LackKind::FarReference)
            } else {
                None
            }
        }
    }
}

/// Whether a number is less than that of the first lack so far, or there is none.
fn is_before(number: u32, least: Option<Lack>) -> bool
    ensures { IsTrue result ↔ IsBefore number least }
{
    match least {
        Some(least) => number < least.node,
        None => true,
    }
}

/// A search for the first lack of a part: how each node was met, the next index, and the first lack so far.
#[derive(Drop)]
struct Search {
    meetings: Vec<Meeting>,
    next: u32,
    least: Option<Lack>,
}

impl Search {
    /// A node is met. It gives whether it was never met before.
    fn meet(&mut self, node: NodeId, numbering: &Numbering, graph: &Rooted) -> bool
        requires order { IsOrder (content graph.now) numbering.now }
        requires there { node.0 < length graph.now.arena.nodes }
        requires room { length self.old.meetings.items ≡ length graph.now.arena.nodes }
        requires few { self.old.next + unmet self.old.meetings.items ≤ places_end }
        ensures searched { SearchesNode (content graph.now) numbering.now node.0 result self.old self.new }
        ensures room { length self.new.meetings.items ≡ length self.old.meetings.items }
        ensures few { self.new.next + unmet self.new.meetings.items ≤ places_end }
        ensures less { result ≡ true → unmet self.new.meetings.items < unmet self.old.meetings.items }
        ensures same { result ≡ false → self.new.meetings ≡ self.old.meetings }
    {
        let meeting = self.meetings[node.0 as usize];
        let kind = reason(node, meeting, graph);
        self.note(kind, node, numbering);
        match meeting {
            Meeting::Never => {
                self.enter(node, graph);
                true
            }
            _ => false,
        }
    }

    /// Notes a reason at a node where it comes before the first lack so far.
    fn note(&mut self, reason: Option<LackKind>, node: NodeId, numbering: &Numbering)
        ensures noted { Notes numbering.now node.0 reason self.old.least self.new.least }
        ensures meetings { self.new.meetings ≡ self.old.meetings }
        ensures next { self.new.next ≡ self.old.next }
    {
        if let Some(kind) = reason {
            if let Some(number) = numbering.number_of(node) {
                if is_before(number, self.least) {
                    self.least = Some(Lack { kind, node: number });
                }
            }
        }
    }

    /// Enters a node that was never met before.
    fn enter(&mut self, node: NodeId, graph: &Rooted)
        requires there { node.0 < length graph.now.arena.nodes }
        requires room { length self.old.meetings.items ≡ length graph.now.arena.nodes }
        requires few { self.old.next < 2 ^ 31 }
        ensures entered { IsEntered (content graph.now) node.0 self.old self.new }
        ensures least { self.new.least ≡ self.old.least }
    {
        if enters(node, graph) {
            self.meetings[node.0 as usize] = Meeting::At(self.next);
            self.next += 1;
        } else {
            self.meetings[node.0 as usize] = Meeting::Alone;
        }
    }

    /// Meets a value, and the values behind it. It gives up where there is no memory.
    fn walk(
        &mut self,
        alloc: Global,
        value: Value,
        numbering: &Numbering,
        graph: &Rooted,
    ) -> Result<(), Memory>
        requires order { IsOrder (content graph.now) numbering.now }
        requires value { Names graph.now.arena value }
        requires room { length self.old.meetings.items ≡ length graph.now.arena.nodes }
        requires few { self.old.next + unmet self.old.meetings.items ≤ places_end }
        ensures { SearchesAll (content graph.now) numbering.now (value_content graph.now.arena value) self.old self.new result }
    {
        let mut waiting = vec![in alloc; value]?;
        while let Some(value) = waiting.pop() {
            if let Value::Node(node) = value {
                if self.meet(node, numbering, graph) {
                    let mut parts = values_met(alloc, node, graph)?;
                    parts.reverse();
                    waiting.append(&mut parts)?;
                }
            }
        }
        Ok(())
    }
}

/// The first lack of a part that has one, by its canonical number in the graph: of the nodes that the value meets, where these
/// are how they were met before, and this is the next index. It gives up where there is no memory.
pub(crate) fn part_lack(
    alloc: Global,
    value: Value,
    meetings: Vec<Meeting>,
    next: u32,
    graph: &Rooted,
) -> Result<Lack, Memory>
    requires value { Names graph.now.arena value }
    requires reached { IsReachedValue (content graph.now) (value_content graph.now.arena value) }
    requires room { length meetings.items ≡ length graph.now.arena.nodes }
    requires few { next ≤ count_end }
    requires lacking { (t : Tables) × AreMetBefore graph.now t meetings.items next × HasLackBehind graph.now value t }
    ensures { (t : Tables) → AreMetBefore graph.now t meetings.items next → IfOk result (IsLackBehind graph.now value t) }
{
    graph.is_finished();
    let numbering = Numbering::of(alloc, graph)?;
    let mut search = Search {
        meetings,
        next,
        least: None,
    };
    search.walk(alloc, value, &numbering, graph)?;
    match search.least {
        Some(lack) => Ok(lack),
        None => unreachable!(),
    }
}
