ghost use Rattle.std.specs.Prelude.{◌≡◌, ◌<◌, length, map, bytes_eq, IfSome};
ghost use Rattle.std.specs.List.{AllByRecursion};
ghost use Rattle.std.specs.Option.{option_map};
ghost use Rattle.amf_graph.specs.Arena.{Names, value_content};
ghost use Rattle.amf_graph.specs.Bounds.{weight};
ghost use Rattle.amf_graph.specs.Rooted.{content};
ghost use Rattle.amf_service.specs.Shipped.{items_of, one_of};

use amf_graph::{NodeView, Rooted, Value};
use amf_wire::Name;

/// Whether the operation has this name.
pub fn is_named(operation: &Name, name: &[u8]) -> bool
    ensures { result ≡ bytes_eq name.now operation.now }
{
    name == operation.as_bytes()
}

/// The items of the arguments, where they are an array without names; else `None`. There are fewer than the weight of the
/// arguments.
pub fn items(args: &Rooted) -> Option<&[Value]>
    ensures items { option_map (λ vs. map (value_content args.now.arena) vs.now) result ≡ items_of (content args.now) }
    ensures names { IfSome result (λ vs. AllByRecursion (Names args.now.arena) vs.now) }
    ensures few { IfSome result (λ vs. length vs.now < weight args.now.arena) }
{
    args.is_finished();
    let Value::Node(node) = args.root() else {
        return None;
    };
    let NodeView::Array { items, names } = args.node(node) else {
        return None;
    };
    if names.is_empty() { Some(items) } else { None }
}

/// The one item of the arguments, where they are an array without names that has one item; else `None`.
pub fn one_item(args: &Rooted) -> Option<Value>
    ensures item { option_map (value_content args.now.arena) result ≡ one_of (items_of (content args.now)) }
    ensures names { IfSome result (λ v. Names args.now.arena v) }
{
    let items = items(args)?;
    if items.len() == 1 {
        Some(items[0])
    } else {
        None
    }
}
