ghost use Rattle.std.specs.Prelude.{◌≡◌, ◌+◌, ◌<◌, ◌≤◌, [], length, map, IfOk, OnOk};
ghost use Rattle.std.specs.List.{AllByRecursion};
ghost use Rattle.amf_graph.specs.Arena.{Names, array};
ghost use Rattle.amf_graph.specs.Bounds.{weight};
ghost use Rattle.amf_graph.specs.Building.{kept_node, closed};
ghost use Rattle.amf_graph.specs.ByName.{stable_sort};
ghost use Rattle.amf_graph.specs.Isomorphic.{Isomorphic};
ghost use Rattle.amf_graph.specs.Rooted.{content};
ghost use Rattle.amf_graph.specs.declared.limits.TheConstants.{MAX_COUNT};
ghost use Rattle.amf_service.specs.Made.{texts_of, AreTextsOf};
ghost use Rattle.amf_service.specs.Meaning.{heaviest_arguments};
ghost use Rattle.amf_service.specs.Shipped.{is_before, texts_graph};

use crate::copies::kept;
use amf_graph::{Builder, NodeId, Part, Rooted, Shape, TextId, Value};
use amf_wire::Memory;
use std::alloc::Global;

/// Texts of a graph in the order of their bytes. It gives up where there is no memory.
pub(crate) fn in_order(
    alloc: Global,
    texts: &[TextId],
    graph: &Rooted,
) -> Result<Vec<TextId>, Memory>
    requires { AreTextsOf graph.now.arena texts.now }
    ensures order { IfOk result (λ sorted. texts_of graph.now.arena sorted.items ≡ stable_sort is_before (texts_of graph.now.arena texts.now)) }
    ensures there { IfOk result (λ sorted. AreTextsOf graph.now.arena sorted.items) }
    ensures count { IfOk result (λ sorted. length sorted.items ≡ length texts.now) }
{
    let mut sorted = texts.to_vec(alloc)?;
    sorted.sort_by(|x, y| graph.compare_texts(*x, *y))?;
    Ok(sorted)
}

/// Adds an array of these values. It gives up where there is no memory.
pub fn add_array(builder: &mut Builder, items: &[Value]) -> Result<NodeId, Memory>
    requires names { AllByRecursion (Names builder.old) items.now }
    requires room { length builder.old.nodes + length items.now < MAX_COUNT }
    ensures id { IfOk result (λ n. n.0 ≡ length builder.old.nodes) }
    ensures ok { OnOk result (builder.new ≡ kept_node builder.old (closed array [] items.now)) }
{
    builder.is_built();
    let node = kept(builder.open_node(Shape::Array))?;
    for item in items {
        kept(builder.put(node, Part::Item(*item)))?;
    }
    builder.close_node(node);
    Ok(node)
}

/// The values of texts.
fn values_of(alloc: Global, texts: &[TextId]) -> Result<Vec<Value>, Memory>
    ensures { IfOk result (λ values. values.items ≡ map (λ t. Value.Text t) texts.now) }
{
    Ok(texts.iter().map(|text| Value::Text(*text)).collect(alloc)?)
}

/// The array of these texts of a graph. It gives up where there is no memory.
pub(crate) fn array_of_texts(
    alloc: Global,
    graph: &Rooted,
    texts: &[TextId],
) -> Result<Rooted, Memory>
    requires there { AreTextsOf graph.now.arena texts.now }
    requires few { length texts.now ≤ heaviest_arguments }
    ensures same { IfOk result (λ made. Isomorphic (texts_graph (texts_of graph.now.arena texts.now)) (content made)) }
    ensures light { IfOk result (λ made. weight made.arena ≤ weight graph.now.arena + length texts.now + 1) }
{
    graph.is_finished();
    let values = values_of(alloc, texts)?;
    let mut builder = Builder::beside(alloc, graph)?;
    let copies = kept(builder.graft_values(graph, &values))?;
    let array = add_array(&mut builder, &copies)?;
    let made = builder.whole(Value::Node(array));
    made.is_finished();
    Ok(made)
}
