//! Copies of nodes with doubles for integers, members for sealed values, and for each node the value that stands in for it.

ghost use Rattle.std.specs.Prelude.{◌≡◌, ◌<◌, ◌++◌, [], ◌∷◌, false, length, map, IfOk, OnOk};
ghost use Rattle.std.specs.List.{AllByRecursion, AllZip, zip};
ghost use Rattle.amf_wire.specs.Integer.{IsInteger};
ghost use Rattle.amf_wire.specs.Whole.{IsPatternOf};
ghost use Rattle.amf_graph.specs.Arena.{StoredNode};
ghost use Rattle.amf_graph.specs.Graph.{IsPattern};
ghost use Rattle.amf_graph.specs.Held.{form_head, held_head, held_names, held_values, held_node};
ghost use Rattle.amf_graph.specs.HaveStandIns.{HasStandIn, HasSealed, NodeHasStandIns};
ghost use Rattle.amf_graph.specs.StandIns.{StandsFor, PairStandsFor, StandBehind, PairsStandBehind, NodeStandsFor, sealed_of, unsealed_of};
ghost use Rattle.amf_graph.specs.Views.{named, flat};

use crate::body::Body;
use crate::classes::Classes;
use crate::held::{Form, Held};
use crate::nodes::Nodes;
use crate::{TextId, Value};
use amf_wire::{Memory, Pattern, pattern_of};
use std::alloc::Global;

/// The double that is this integer.
fn double_of(integer: i32) -> Pattern
    requires { IsInteger integer }
    ensures pattern { IsPatternOf result.0 integer }
    ensures fits { IsPattern result.0 }
{
    match pattern_of(integer as i64) {
        Some(pattern) => pattern,
        None => unreachable!(),
    }
}

/// What stands for a value.
pub(crate) fn stand_in(value: Value, stand_ins: &[Value]) -> Value
    requires { HasStandIn stand_ins.now value }
    ensures { StandsFor stand_ins.now value result }
{
    match value {
        Value::Integer(integer) => Value::Double(double_of(integer)),
        Value::Node(node) => stand_ins[node.0 as usize],
        _ => value,
    }
}

/// Puts what stands for each of the values behind the copies.
fn push_values(values: &[Value], stand_ins: &[Value], copies: &mut Vec<Value>) -> Result<(), Memory>
    requires { AllByRecursion (HasStandIn stand_ins.now) values.now }
    ensures { StandBehind stand_ins.now copies.old.items copies.new.items values.now result }
{
    for value in values {
        copies.push(stand_in(*value, stand_ins))?;
    }
    Ok(())
}

/// Puts each of the pairs, with what stands for its value, behind the copies.
fn push_pairs(
    pairs: &[(TextId, Value)],
    stand_ins: &[Value],
    copies: &mut Vec<(TextId, Value)>,
) -> Result<(), Memory>
    requires { AllByRecursion (λ p. HasStandIn stand_ins.now p.1) (named pairs.now) }
    ensures { PairsStandBehind stand_ins.now (named copies.old.items) (named copies.new.items) (named pairs.now) result }
{
    for (name, value) in pairs {
        copies.push((*name, stand_in(*value, stand_ins)))?;
    }
    Ok(())
}

/// Puts each name, with what stands for the value at its place, behind the copies.
fn push_sealed(
    names: &[TextId],
    values: &[Value],
    stand_ins: &[Value],
    copies: &mut Vec<(TextId, Value)>,
) -> Result<(), Memory>
    requires all { length values.now ≡ length names.now }
    requires values { AllByRecursion (HasStandIn stand_ins.now) values.now }
    ensures { PairsStandBehind stand_ins.now (named copies.old.items) (named copies.new.items) (zip (map (λ x. x.0) names.now) values.now) result }
{
    for (place, name) in names.iter().enumerate() {
        copies.push((*name, stand_in(values[place], stand_ins)))?;
    }
    Ok(())
}

fn stand_in_entries(
    alloc: Global,
    entries: &[(Value, Value)],
    stand_ins: &[Value],
) -> Result<Vec<(Value, Value)>, Memory>
    requires { AllByRecursion (HasStandIn stand_ins.now) (flat entries.now) }
    ensures { IfOk result (λ copies. AllZip (StandsFor stand_ins.now) (flat entries.now) (flat copies.items)) }
{
    let mut copies = Vec::new(alloc);
    for (key, value) in entries {
        let entry = (stand_in(*key, stand_ins), stand_in(*value, stand_ins));
        copies.push(entry)?;
    }
    Ok(copies)
}

/// What stands for the values and the pairs of one node, in lists that are used again for the next.
#[derive(Drop)]
struct Lists {
    values: Vec<Value>,
    pairs: Vec<(TextId, Value)>,
}

impl Lists {
    fn new(alloc: Global) -> Lists {
        Lists {
            values: Vec::new(alloc),
            pairs: Vec::new(alloc),
        }
    }

    fn clear(&mut self)
        ensures values { self.new.values.items ≡ [] }
        ensures pairs { self.new.pairs.items ≡ [] }
    {
        self.values.clear();
        self.pairs.clear();
    }

    /// The values and the pairs of a node of this form, of classes that are no longer sealed: an object's sealed pairs, and
    /// behind them its members.
    fn fill(
        &mut self,
        form: Form,
        values: &[Value],
        names: &[(TextId, Value)],
        classes: &Classes,
        stand_ins: &[Value],
    ) -> Result<(), Memory>
        requires sealed { HasSealed classes.now (form_head form) values.now }
        requires names { AllByRecursion (λ p. HasStandIn stand_ins.now p.1) (named names.now) }
        requires values { AllByRecursion (HasStandIn stand_ins.now) values.now }
        ensures names { OnOk result (AllZip (PairStandsFor stand_ins.now) (zip (sealed_of classes.now (form_head form)) values.now ++ named names.now) (named self.new.pairs.items)) }
        ensures values { OnOk result (AllZip (StandsFor stand_ins.now) (unsealed_of (form_head form) values.now) self.new.values.items) }
    {
        self.clear();
        if let Form::Object(traits) = form {
            let class = classes.get(traits.0 as usize);
            push_sealed(class.sealed, values, stand_ins, &mut self.pairs)?;
            return push_pairs(names, stand_ins, &mut self.pairs);
        }
        push_values(values, stand_ins, &mut self.values)?;
        push_pairs(names, stand_ins, &mut self.pairs)
    }
}

/// Keeps what stands for a node behind the copies, of classes that are no longer sealed.
fn keep_stand_in(
    alloc: Global,
    held: Held<'_>,
    classes: &Classes,
    stand_ins: &[Value],
    lists: &mut Lists,
    copies: &mut Nodes,
) -> Result<(), Memory>
    requires sealed { HasSealed classes.now (held_head held) (held_values held) }
    requires names { AllByRecursion (λ p. HasStandIn stand_ins.now p.1) (held_names held) }
    requires values { AllByRecursion (HasStandIn stand_ins.now) (held_values held) }
    ensures { OnOk result ((copy : StoredNode) × (copies.new ≡ copies.old ++ copy ∷ []) × NodeStandsFor classes.now stand_ins.now (held_node false held.entry) copy) }
{
    match held {
        Held::Leaf(leaf) => copies.keep(Body::Leaf(leaf.copy(alloc)?)),
        Held::Bytes(bytes) => copies.keep(Body::Bytes(bytes)),
        Held::Parts(form, values, names) => {
            lists.fill(form, values, names, classes, stand_ins)?;
            copies.keep_parts(form, &lists.values, &lists.pairs)
        }
        Held::Dictionary(weak, entries) => {
            let entries = stand_in_entries(alloc, entries, stand_ins)?;
            copies.keep(Body::Dictionary(weak, entries))
        }
    }
}

/// The nodes, of classes that are no longer sealed. All are closed.
pub(crate) fn stand_in_nodes(
    alloc: Global,
    nodes: &Nodes,
    classes: &Classes,
    stand_ins: &[Value],
) -> Result<Nodes, Memory>
    requires stand_ins { AllByRecursion (NodeHasStandIns classes.now stand_ins.now) nodes.now }
    requires closed { AllByRecursion (λ n. n.is_open ≡ false) nodes.now }
    ensures { IfOk result (λ copies. AllZip (NodeStandsFor classes.now stand_ins.now) nodes.now copies) }
{
    let mut lists = Lists::new(alloc);
    let mut copies = Nodes::new(alloc);
    for place in 0..nodes.len() {
        let held = nodes.held(place);
        keep_stand_in(alloc, held, classes, stand_ins, &mut lists, &mut copies)?;
    }
    Ok(copies)
}
