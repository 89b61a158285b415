ghost use Rattle.std.specs.Prelude.{◌≡◌, ◌≤◌, ◌++◌, length, map, bytes_eq, IfOk, OnOk, IfSome};
ghost use Rattle.std.specs.Option.{option_map};
ghost use Rattle.amf_graph.specs.Arena.{Names as NamesIn, value_content};
ghost use Rattle.amf_graph.specs.Bounds.{weight};
ghost use Rattle.amf_graph.specs.Rooted.{content};
ghost use Rattle.amf_service.specs.Made.{texts_of, AreTextsOf};
ghost use Rattle.amf_graph.specs.ByName.{stable_sort};
ghost use Rattle.amf_service.specs.Meaning.{Answers, given, result as Gave, heaviest_arguments, heaviest_result};
ghost use Rattle.amf_service.specs.Shipped.{names_name, named, names_at, or_fault, is_before, texts_graph};

use crate::texts::{array_of_texts, in_order};
use crate::{Service, ServiceEnd, fault, is_named, one_item};
use amf_graph::{NodeView, Rooted, TextId, Value};
use amf_wire::{Memory, Name};
use std::alloc::Global;

/// The operation `names` gives the array of the names of its one item's members, where this is an object: the sealed and the
/// dynamic ones, in the order of their bytes. Other arguments are the fault `wrong arguments`.
#[derive(Drop)]
pub struct Names;

/// Appends the names of pairs.
fn push_names(pairs: &[(TextId, Value)], names: &mut Vec<TextId>) -> Result<(), Memory>
    ensures { OnOk result (names.new.items ≡ names.old.items ++ map (λ p. p.0) pairs.now) }
{
    for (name, _) in pairs {
        names.push(*name)?;
    }
    Ok(())
}

/// The names of an object's members, the sealed ones first; `None` where the value is no object.
fn member_names(alloc: Global, graph: &Rooted, value: Value) -> Result<Option<Vec<TextId>>, Memory>
    requires { NamesIn graph.now.arena value }
    ensures names { IfOk result (λ found. option_map (λ names. texts_of graph.now.arena names.items) found ≡ names_at (content graph.now) (value_content graph.now.arena value)) }
    ensures there { IfOk result (λ found. IfSome found (λ names. AreTextsOf graph.now.arena names.items)) }
    ensures few { IfOk result (λ found. IfSome found (λ names. length names.items ≤ weight graph.now.arena)) }
{
    graph.is_finished();
    let Value::Node(node) = value else {
        return Ok(None);
    };
    let NodeView::Object {
        traits,
        members,
        ..
    } = graph.node(node)
    else {
        return Ok(None);
    };
    let mut names = graph.traits(traits).sealed.to_vec(alloc)?;
    push_names(members, &mut names)?;
    Ok(Some(names))
}

/// The answer with the names of the members of this value.
fn names_of(alloc: Global, args: &Rooted, item: Value) -> Result<Rooted, ServiceEnd>
    requires names { NamesIn args.now.arena item }
    requires light { weight args.now.arena ≤ heaviest_arguments }
    ensures answer { Answers (given (or_fault (names_at (content args.now) (value_content args.now.arena item)) (λ xs. Gave (texts_graph (stable_sort is_before xs))))) result }
    ensures light { IfOk result (λ graph. weight graph.arena ≤ heaviest_result) }
{
    match member_names(alloc, args, item)? {
        Some(names) => {
            let sorted = in_order(alloc, &names, args)?;
            Ok(array_of_texts(alloc, args, &sorted)?)
        }
        None => Err(fault(alloc, b"wrong arguments")),
    }
}

impl Service for Names {
    ghost knows = { λ _. bytes_eq names_name };

    ghost gives = { λ _ operation args. named args };

    fn answers(
        &self,
        alloc: Global,
        operation: &Name,
        args: &Rooted,
    ) -> Result<Rooted, ServiceEnd> {
        if !is_named(operation, b"names") {
            return Err(ServiceEnd::Unknown);
        }
        match one_item(args) {
            Some(item) => names_of(alloc, args, item),
            None => Err(fault(alloc, b"wrong arguments")),
        }
    }

    fn is_lawful(&self) {}
}
