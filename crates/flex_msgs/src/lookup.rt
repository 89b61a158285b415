//! Members of messages by their names.

ghost use Rattle.std.specs.Prelude.{◌≡◌, ◌<◌, ◌++◌, length, get_or, IfOk, IfSome};
ghost use Rattle.std.specs.List.{AllByRecursion};
ghost use Rattle.std.specs.Option.{option_map};
ghost use Rattle.amf_graph.specs.Arena.{Names, no_traits, value_content};
ghost use Rattle.amf_graph.specs.Views.{named};
ghost use Rattle.flex_msgs.specs.Asked.{IsCommon};
ghost use Rattle.flex_msgs.specs.Lookup.{value_named, pairs_at, named_in};
ghost use Rattle.flex_msgs.specs.KeptPairs.{pairs_content, stored_pairs, IsPairIn};

use crate::Common;
use amf_graph::{NodeView, Rooted, TextId, TraitsId, Value};
use amf_wire::Memory;
use std::alloc::Global;

/// The last value of this name among the pairs, or null.
pub(crate) fn value_named(graph: &Rooted, pairs: &[(TextId, Value)], name: &[u8]) -> Value
    requires { AllByRecursion (IsPairIn graph.now.arena) (named pairs.now) }
    ensures value { value_content graph.now.arena result ≡ value_named name.now (pairs_content graph.now.arena (named pairs.now)) }
    ensures names { Names graph.now.arena result }
{
    let mut last = Value::Null;
    for (text, value) in pairs {
        if graph.text(*text) == name {
            last = *value;
        }
    }
    last
}

/// The members of an object, the sealed ones first.
pub(crate) fn members_of(
    alloc: Global,
    graph: &Rooted,
    traits: TraitsId,
    sealed: &[Value],
    members: &[(TextId, Value)],
) -> Result<Vec<(TextId, Value)>, Memory>
    requires there { traits.0 < length graph.now.arena.traits }
    requires sealed { length sealed.now ≡ length (get_or graph.now.arena.traits traits.0 no_traits).sealed }
    ensures { IfOk result (λ pairs. named pairs.items ≡ stored_pairs (get_or graph.now.arena.traits traits.0 no_traits).sealed sealed.now ++ named members.now) }
{
    let names = graph.traits(traits).sealed;
    let mut pairs = Vec::new(alloc);
    for (place, value) in sealed.iter().enumerate() {
        pairs.push((names[place], *value))?;
    }
    pairs.extend_from_slice(members)?;
    Ok(pairs)
}

/// What names are looked up in: an object's members, an array's names, and nothing for null. Other values have none.
pub(crate) fn pairs_of(
    alloc: Global,
    graph: &Rooted,
    value: Value,
) -> Result<Option<Vec<(TextId, Value)>>, Memory>
    requires { Names graph.now.arena value }
    ensures pairs { IfOk result (λ found. option_map (λ pairs. pairs_content graph.now.arena (named pairs.items)) found ≡ pairs_at graph.now value) }
    ensures names { IfOk result (λ found. IfSome found (λ pairs. AllByRecursion (IsPairIn graph.now.arena) (named pairs.items))) }
{
    graph.is_finished();
    match value {
        Value::Null => Ok(Some(Vec::new(alloc))),
        Value::Node(node) => match graph.node(node) {
            NodeView::Array { names, .. } => Ok(Some(names.to_vec(alloc)?)),
            NodeView::Object {
                traits,
                sealed,
                members,
            } => Ok(Some(members_of(alloc, graph, traits, sealed, members)?)),
            _ => Ok(None),
        },
        _ => Ok(None),
    }
}

/// The value of the last member of this name of an object, or of the last such name of an array. It is null where there is
/// none, and of any other value. It gives up where there is no memory.
pub fn member(alloc: Global, graph: &Rooted, value: Value, name: &[u8]) -> Result<Value, Memory>
    requires { Names graph.now.arena value }
    ensures value { IfOk result (λ found. value_content graph.now.arena found ≡ named_in name.now (pairs_at graph.now value)) }
    ensures names { IfOk result (λ found. Names graph.now.arena found) }
{
    match pairs_of(alloc, graph, value)? {
        Some(pairs) => Ok(value_named(graph, &pairs, name)),
        None => Ok(Value::Null),
    }
}

/// The value of the last header of this name, or null where there is none. It gives up where there is no memory.
///
/// The values of the request are the graph's.
pub fn header(alloc: Global, graph: &Rooted, common: &Common, name: &[u8]) -> Result<Value, Memory>
    requires { IsCommon graph.now.arena common.now }
    ensures value { IfOk result (λ value. value_content graph.now.arena value ≡ named_in name.now (pairs_at graph.now common.now.headers)) }
    ensures names { IfOk result (λ value. Names graph.now.arena value) }
{
    member(alloc, graph, common.headers, name)
}
