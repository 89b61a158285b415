ghost use Rattle.std.specs.Prelude.{◌≡◌, ◌+◌, ◌<◌, ◌≤◌, ◌++◌, length, reverse, IfOk, OnOk};
ghost use Rattle.std.specs.List.{AllByRecursion};
ghost use Rattle.std.specs.Result.{IsErrOf};
ghost use Rattle.amf_graph.specs.Arena.{Arena, text_at};
ghost use Rattle.amf_graph.specs.Rooted.{RootedArena, content};
ghost use Rattle.amf0_spelling.specs.Lacks0.{IsShortName};
ghost use Rattle.amf0_spelling.specs.Lowered.{IsLowered};
ghost use Rattle.amf0_write.specs.declared.stop.Stop.TheVariants.{Lack};
ghost use Rattle.amf0_write.specs.Unwritten0.{IsMetValue, IsMetPair, IsRunOf, AreRunsOf, IsNextOf, run_segments, segments_left, run_turns, turns_left};
ghost use Rattle.amf0_write.specs.Unwritten0.{LeadsRun, LeadsValues, LeadsPairs, LeadsName, LeadsEnd, StopsWithin, values_ahead, pairs_ahead};
ghost use Rattle.amf0_write.specs.Writes0.{tables_of, done_of, Still, Keeps};
ghost use Rattle.amf0_write.specs.Written0.{AreTables0};

use crate::lowered::Lowered;
use crate::output::Output;
use crate::rooms::Rooms;
use crate::stop::Stop;
use amf_graph::{NodeId, TextId, Value};
use amf_wire::Memory;

/// A run of what is still to be written, within one node.
#[derive(Drop)]
pub(crate) enum Unwritten<'g> {
    /// A value.
    One(Value),
    /// Values, one after another.
    Values(&'g [Value]),
    /// Values that were made, from the last to the first.
    Made(Vec<Value>),
    /// Pairs as they stand, ended by the empty name and the marker of the end (2.5, 2.10).
    Pairs(&'g [(TextId, Value)]),
    /// Pairs that were sorted, from the last to the first, ended in the same way.
    Sorted(Vec<(TextId, Value)>),
}

impl Output {
    /// Writes a run up to its next node that has not been written, and puts what is behind that back onto the stack. There is
    /// no such node where the run is written to its end. It stops at a node that was written and that no index can say.
    pub(crate) fn run<'g>(
        &mut self,
        run: Unwritten<'g>,
        graph: &'g Lowered<'g>,
        rooms: &mut Rooms,
        waiting: &mut Vec<Unwritten<'g>>,
    ) -> Result<Option<NodeId>, Stop>
        requires low { IsLowered (content graph.now) }
        requires run { IsRunOf graph.now run }
        requires tables { AreTables0 (content graph.now) (tables_of self.old) }
        ensures leads { IfOk result (λ next. LeadsRun graph.now run.entry waiting.old.items waiting.new.items next self.old self.new) }
        ensures lack { IsErrOf result Lack → StopsWithin graph.now (run_segments graph.now.arena run.entry) waiting.old.items self.old }
        ensures next { IfOk result (IsNextOf graph.now (done_of self.new)) }
        ensures runs { AreRunsOf graph.now waiting.old.items → OnOk result (AreRunsOf graph.now waiting.new.items) }
        ensures turns { OnOk result (turns_left waiting.new.items + 1 ≤ run_turns run.entry + turns_left waiting.old.items) }
        ensures still { OnOk result (Still self.old self.new) }
        ensures stopped { IsErrOf result Lack → Still self.old self.new }
        ensures keeps { Keeps self.old self.new }
        ensures order { rooms.new.order ≡ rooms.old.order }
    {
        match run {
            Unwritten::One(value) => self.whole(value, graph),
            Unwritten::Values(values) => self.values(values, graph, waiting),
            Unwritten::Made(values) => self.made(values, graph, waiting),
            Unwritten::Pairs(pairs) => self.pairs(pairs, graph, waiting),
            Unwritten::Sorted(pairs) => self.sorted(pairs, graph, rooms, waiting),
        }
    }

    /// Values.
    fn values<'g>(
        &mut self,
        values: &'g [Value],
        graph: &'g Lowered<'g>,
        waiting: &mut Vec<Unwritten<'g>>,
    ) -> Result<Option<NodeId>, Stop>
        requires low { IsLowered (content graph.now) }
        requires run { AllByRecursion (IsMetValue graph.now) values.now }
        requires tables { AreTables0 (content graph.now) (tables_of self.old) }
        ensures leads { IfOk result (λ next. LeadsValues graph.now values.now waiting.old.items waiting.new.items next self.old self.new) }
        ensures lack { IsErrOf result Lack → StopsWithin graph.now (values_ahead graph.now.arena values.now) waiting.old.items self.old }
        ensures next { IfOk result (IsNextOf graph.now (done_of self.new)) }
        ensures runs { AreRunsOf graph.now waiting.old.items → OnOk result (AreRunsOf graph.now waiting.new.items) }
        ensures turns { OnOk result (turns_left waiting.new.items ≤ length values.now + turns_left waiting.old.items) }
        ensures still { OnOk result (Still self.old self.new) }
        ensures stopped { IsErrOf result Lack → Still self.old self.new }
        ensures keeps { Keeps self.old self.new }
    {
        let mut left = values;
        while let Some((value, rest)) = left.split_first() {
            left = rest;
            if let Some(node) = self.whole(*value, graph)? {
                push_values(left, waiting)?;
                return Ok(Some(node));
            }
        }
        Ok(None)
    }

    /// Values from the last to the first.
    fn made<'g>(
        &mut self,
        mut values: Vec<Value>,
        graph: &'g Lowered<'g>,
        waiting: &mut Vec<Unwritten<'g>>,
    ) -> Result<Option<NodeId>, Stop>
        requires low { IsLowered (content graph.now) }
        requires run { AllByRecursion (IsMetValue graph.now) values.items }
        requires tables { AreTables0 (content graph.now) (tables_of self.old) }
        ensures leads { IfOk result (λ next. LeadsValues graph.now (reverse values.items) waiting.old.items waiting.new.items next self.old self.new) }
        ensures lack { IsErrOf result Lack → StopsWithin graph.now (values_ahead graph.now.arena (reverse values.items)) waiting.old.items self.old }
        ensures next { IfOk result (IsNextOf graph.now (done_of self.new)) }
        ensures runs { AreRunsOf graph.now waiting.old.items → OnOk result (AreRunsOf graph.now waiting.new.items) }
        ensures turns { OnOk result (turns_left waiting.new.items ≤ length values.items + turns_left waiting.old.items) }
        ensures still { OnOk result (Still self.old self.new) }
        ensures stopped { IsErrOf result Lack → Still self.old self.new }
        ensures keeps { Keeps self.old self.new }
    {
        while let Some(value) = values.pop() {
            if let Some(node) = self.whole(value, graph)? {
                waiting.push(Unwritten::Made(values))?;
                return Ok(Some(node));
            }
        }
        Ok(None)
    }

    /// Pairs as they stand: each name, and then its value, and the end behind them.
    fn pairs<'g>(
        &mut self,
        pairs: &'g [(TextId, Value)],
        graph: &'g Lowered<'g>,
        waiting: &mut Vec<Unwritten<'g>>,
    ) -> Result<Option<NodeId>, Stop>
        requires low { IsLowered (content graph.now) }
        requires run { AllByRecursion (IsMetPair graph.now) pairs.now }
        requires tables { AreTables0 (content graph.now) (tables_of self.old) }
        ensures leads { IfOk result (λ next. LeadsPairs graph.now pairs.now waiting.old.items waiting.new.items next self.old self.new) }
        ensures lack { IsErrOf result Lack → StopsWithin graph.now (pairs_ahead graph.now.arena pairs.now) waiting.old.items self.old }
        ensures next { IfOk result (IsNextOf graph.now (done_of self.new)) }
        ensures runs { AreRunsOf graph.now waiting.old.items → OnOk result (AreRunsOf graph.now waiting.new.items) }
        ensures turns { OnOk result (turns_left waiting.new.items ≤ length pairs.now + turns_left waiting.old.items) }
        ensures still { OnOk result (Still self.old self.new) }
        ensures stopped { IsErrOf result Lack → Still self.old self.new }
        ensures keeps { Keeps self.old self.new }
    {
        let mut left = pairs;
        while let Some((pair, rest)) = left.split_first() {
            left = rest;
            let (name, value) = *pair;
            self.name(name, graph)?;
            if let Some(node) = self.whole(value, graph)? {
                waiting.push(Unwritten::Pairs(left))?;
                return Ok(Some(node));
            }
        }
        self.end()?;
        Ok(None)
    }

    /// Pairs from the last to the first, and the end behind them.
    fn sorted<'g>(
        &mut self,
        mut pairs: Vec<(TextId, Value)>,
        graph: &'g Lowered<'g>,
        rooms: &mut Rooms,
        waiting: &mut Vec<Unwritten<'g>>,
    ) -> Result<Option<NodeId>, Stop>
        requires low { IsLowered (content graph.now) }
        requires run { AllByRecursion (IsMetPair graph.now) pairs.items }
        requires tables { AreTables0 (content graph.now) (tables_of self.old) }
        ensures leads { IfOk result (λ next. LeadsPairs graph.now (reverse pairs.items) waiting.old.items waiting.new.items next self.old self.new) }
        ensures lack { IsErrOf result Lack → StopsWithin graph.now (pairs_ahead graph.now.arena (reverse pairs.items)) waiting.old.items self.old }
        ensures next { IfOk result (IsNextOf graph.now (done_of self.new)) }
        ensures runs { AreRunsOf graph.now waiting.old.items → OnOk result (AreRunsOf graph.now waiting.new.items) }
        ensures turns { OnOk result (turns_left waiting.new.items ≤ length pairs.items + turns_left waiting.old.items) }
        ensures still { OnOk result (Still self.old self.new) }
        ensures stopped { IsErrOf result Lack → Still self.old self.new }
        ensures keeps { Keeps self.old self.new }
        ensures order { rooms.new.order ≡ rooms.old.order }
    {
        while let Some((name, value)) = pairs.pop() {
            self.name(name, graph)?;
            if let Some(node) = self.whole(value, graph)? {
                waiting.push(Unwritten::Sorted(pairs))?;
                return Ok(Some(node));
            }
        }
        self.end()?;
        rooms.take_back(pairs);
        Ok(None)
    }

    /// A name.
    #[inline]
    fn name(&mut self, name: TextId, graph: &Lowered<'_>) -> Result<(), Memory>
        requires there { name.0 < length graph.now.arena.texts }
        requires fits { IsShortName (text_at graph.now.arena name.0) }
        ensures leads { OnOk result (LeadsName (content graph.now) (text_at graph.now.arena name.0) self.old self.new) }
        ensures still { OnOk result (Still self.old self.new) }
        ensures keeps { Keeps self.old self.new }
    {
        graph.is_finished();
        self.short(graph.text(name))
    }

    /// The end of pairs: the empty name and the marker of the end (2.5, 2.10).
    fn end(&mut self) -> Result<(), Memory>
        ensures leads { OnOk result (LeadsEnd self.old self.new) }
        ensures still { OnOk result (Still self.old self.new) }
        ensures keeps { Keeps self.old self.new }
    {
        self.short(b"")?;
        self.byte(0x09)
    }
}

/// Puts values onto the stack, if there are some.
#[inline]
pub(crate) fn push_values<'g>(
    values: &'g [Value],
    waiting: &mut Vec<Unwritten<'g>>,
) -> Result<(), Memory>
    ensures left { (a : Arena) → OnOk result (segments_left a waiting.new.items ≡ values_ahead a values.now ++ segments_left a waiting.old.items) }
    ensures runs { (g : RootedArena) → AllByRecursion (IsMetValue g) values.now → AreRunsOf g waiting.old.items → OnOk result (AreRunsOf g waiting.new.items) }
    ensures turns { OnOk result (turns_left waiting.new.items ≤ turns_left waiting.old.items + (length values.now + 1)) }
{
    if values.is_empty() {
        return Ok(());
    }
    waiting.push(Unwritten::Values(values))?;
    Ok(())
}
