ghost use Rattle.std.specs.Prelude.{◌≡◌, ◌+◌, ◌*◌, ◌≤◌, [], ◌++◌, length, reverse, IfOk, OnOk};
ghost use Rattle.amf_graph.specs.Arena.{Arena};
ghost use Rattle.amf_graph.specs.Views.{flat};
ghost use Rattle.amf_iso.specs.Contents.{AreValues};
ghost use Rattle.amf3_write.specs.Unwritten.{IsRunOf, AreRunsOf, AreStoredPairs, IsNextOf, run_segments, segments_left, run_turns, turns_left};
ghost use Rattle.amf3_write.specs.Unwritten.{LeadsToNext, values_ahead, pairs_ahead};
ghost use Rattle.amf3_write.specs.Writes.{Keeps, IsReady};

use crate::output::Output;
use amf_graph::{NodeId, Rooted, TextId, Value};
use amf_iso::LastOrder;
use amf_wire::Memory;

/// A run of what is still to be written, within one node.
#[derive(Drop)]
pub(crate) enum Unwritten<'g> {
    /// A value.
    One(Value),
    /// Values, one after another.
    Values(&'g [Value]),
    /// The entries of a dictionary: each key, and then its value (3.16).
    Entries(&'g [(Value, Value)]),
    /// Pairs as they stand, ended by the empty name (3.11, 3.12).
    Pairs(&'g [(TextId, Value)]),
    /// Pairs that were sorted, from the last to the first, ended by the empty name.
    Sorted(Vec<(TextId, Value)>),
}

impl Output {
    /// Writes a run up to its next node that has not been written, and puts what is behind that back onto the stack. There is
    /// no such node where the run is written to its end.
    pub(crate) fn run<'g>(
        &mut self,
        run: Unwritten<'g>,
        graph: &'g Rooted,
        order: &mut LastOrder,
        waiting: &mut Vec<Unwritten<'g>>,
    ) -> Result<Option<NodeId>, Memory>
        requires run { IsRunOf graph.now.arena run }
        requires ready { IsReady graph.now.arena self.old.tables self.old.known }
        ensures leads { IfOk result (λ next. LeadsToNext graph.now (run_segments graph.now.arena run.entry) waiting.old.items waiting.new.items next self.old self.new) }
        ensures next { IfOk result (IsNextOf graph.now.arena self.new.tables.nodes) }
        ensures runs { AreRunsOf graph.now.arena waiting.old.items → OnOk result (AreRunsOf graph.now.arena waiting.new.items) }
        ensures turns { OnOk result (turns_left waiting.new.items + 1 ≤ run_turns run.entry + turns_left waiting.old.items) }
        ensures keeps { Keeps self.old self.new }
        ensures order { order.new ≡ order.old }
        ensures ready { OnOk result (IsReady graph.now.arena self.new.tables self.new.known) }
    {
        match run {
            Unwritten::One(value) => self.whole(value, graph),
            Unwritten::Values(values) => self.values(values, graph, waiting),
            Unwritten::Entries(entries) => self.entries(entries, graph, waiting),
            Unwritten::Pairs(pairs) => self.pairs(pairs, graph, waiting),
            Unwritten::Sorted(pairs) => self.sorted(pairs, graph, order, waiting),
        }
    }

    /// Values.
    fn values<'g>(
        &mut self,
        values: &'g [Value],
        graph: &'g Rooted,
        waiting: &mut Vec<Unwritten<'g>>,
    ) -> Result<Option<NodeId>, Memory>
        requires run { AreValues graph.now.arena values.now }
        requires ready { IsReady graph.now.arena self.old.tables self.old.known }
        ensures leads { IfOk result (λ next. LeadsToNext graph.now (values_ahead graph.now.arena values.now) waiting.old.items waiting.new.items next self.old self.new) }
        ensures next { IfOk result (IsNextOf graph.now.arena self.new.tables.nodes) }
        ensures runs { AreRunsOf graph.now.arena waiting.old.items → OnOk result (AreRunsOf graph.now.arena waiting.new.items) }
        ensures turns { OnOk result (turns_left waiting.new.items ≤ length values.now + turns_left waiting.old.items) }
        ensures keeps { Keeps self.old self.new }
        ensures ready { OnOk result (IsReady graph.now.arena self.new.tables self.new.known) }
    {
        let mut left = values;
        while let Some((value, rest)) = left.split_first() {
            left = rest;
            if let Some(node) = self.whole(*value, graph)? {
                push_values(left, waiting)?;
                return Ok(Some(node));
            }
        }
        Ok(None)
    }

    /// Entries: each key, and then its value.
    fn entries<'g>(
        &mut self,
        entries: &'g [(Value, Value)],
        graph: &'g Rooted,
        waiting: &mut Vec<Unwritten<'g>>,
    ) -> Result<Option<NodeId>, Memory>
        requires run { AreValues graph.now.arena (flat entries.now) }
        requires ready { IsReady graph.now.arena self.old.tables self.old.known }
        ensures leads { IfOk result (λ next. LeadsToNext graph.now (values_ahead graph.now.arena (flat entries.now)) waiting.old.items waiting.new.items next self.old self.new) }
        ensures next { IfOk result (IsNextOf graph.now.arena self.new.tables.nodes) }
        ensures runs { AreRunsOf graph.now.arena waiting.old.items → OnOk result (AreRunsOf graph.now.arena waiting.new.items) }
        ensures turns { OnOk result (turns_left waiting.new.items ≤ 2 * length entries.now + turns_left waiting.old.items) }
        ensures keeps { Keeps self.old self.new }
        ensures ready { OnOk result (IsReady graph.now.arena self.new.tables self.new.known) }
    {
        let mut left = entries;
        while let Some((entry, rest)) = left.split_first() {
            left = rest;
            let (key, value) = *entry;
            if let Some(node) = self.whole(key, graph)? {
                waiting.push(Unwritten::Entries(left))?;
                waiting.push(Unwritten::One(value))?;
                return Ok(Some(node));
            }
            if let Some(node) = self.whole(value, graph)? {
                waiting.push(Unwritten::Entries(left))?;
                return Ok(Some(node));
            }
        }
        Ok(None)
    }

    /// Pairs as they stand: each name, and then its value, and the empty name behind them.
    fn pairs<'g>(
        &mut self,
        pairs: &'g [(TextId, Value)],
        graph: &'g Rooted,
        waiting: &mut Vec<Unwritten<'g>>,
    ) -> Result<Option<NodeId>, Memory>
        requires run { AreStoredPairs graph.now.arena pairs.now }
        requires ready { IsReady graph.now.arena self.old.tables self.old.known }
        ensures leads { IfOk result (λ next. LeadsToNext graph.now (pairs_ahead graph.now.arena pairs.now) waiting.old.items waiting.new.items next self.old self.new) }
        ensures next { IfOk result (IsNextOf graph.now.arena self.new.tables.nodes) }
        ensures runs { AreRunsOf graph.now.arena waiting.old.items → OnOk result (AreRunsOf graph.now.arena waiting.new.items) }
        ensures turns { OnOk result (turns_left waiting.new.items ≤ length pairs.now + turns_left waiting.old.items) }
        ensures keeps { Keeps self.old self.new }
        ensures ready { OnOk result (IsReady graph.now.arena self.new.tables self.new.known) }
    {
        let mut left = pairs;
        while let Some((pair, rest)) = left.split_first() {
            left = rest;
            let (name, value) = *pair;
            self.text_of(name, graph)?;
            if let Some(node) = self.whole(value, graph)? {
                waiting.push(Unwritten::Pairs(left))?;
                return Ok(Some(node));
            }
        }
        self.text(b"")?;
        Ok(None)
    }

    /// Pairs from the last to the first, and the empty name behind them.
    fn sorted<'g>(
        &mut self,
        mut pairs: Vec<(TextId, Value)>,
        graph: &'g Rooted,
        order: &mut LastOrder,
        waiting: &mut Vec<Unwritten<'g>>,
    ) -> Result<Option<NodeId>, Memory>
        requires run { AreStoredPairs graph.now.arena pairs.items }
        requires ready { IsReady graph.now.arena self.old.tables self.old.known }
        ensures leads { IfOk result (λ next. LeadsToNext graph.now (pairs_ahead graph.now.arena (reverse pairs.items)) waiting.old.items waiting.new.items next self.old self.new) }
        ensures next { IfOk result (IsNextOf graph.now.arena self.new.tables.nodes) }
        ensures runs { AreRunsOf graph.now.arena waiting.old.items → OnOk result (AreRunsOf graph.now.arena waiting.new.items) }
        ensures turns { OnOk result (turns_left waiting.new.items ≤ length pairs.items + turns_left waiting.old.items) }
        ensures keeps { Keeps self.old self.new }
        ensures order { order.new ≡ order.old }
        ensures ready { OnOk result (IsReady graph.now.arena self.new.tables self.new.known) }
    {
        while let Some((name, value)) = pairs.pop() {
            self.text_of(name, graph)?;
            if let Some(node) = self.whole(value, graph)? {
                waiting.push(Unwritten::Sorted(pairs))?;
                return Ok(Some(node));
            }
        }
        self.text(b"")?;
        order.take_back(pairs);
        Ok(None)
    }
}

/// Puts values onto the stack, if there are some.
#[inline]
pub(crate) fn push_values<'g>(
    values: &'g [Value],
    waiting: &mut Vec<Unwritten<'g>>,
) -> Result<(), Memory>
    ensures left { (a : Arena) → OnOk result (segments_left a waiting.new.items ≡ values_ahead a values.now ++ segments_left a waiting.old.items) }
    ensures runs { (a : Arena) → AreValues a values.now → AreRunsOf a waiting.old.items → OnOk result (AreRunsOf a waiting.new.items) }
    ensures turns { OnOk result (turns_left waiting.new.items ≤ turns_left waiting.old.items + (length values.now + 1)) }
{
    if values.is_empty() {
        return Ok(());
    }
    waiting.push(Unwritten::Values(values))?;
    Ok(())
}
