//! Arrays that are made.

ghost use Rattle.std.specs.Prelude.{◌≡◌, ◌+◌, ◌<◌, [], length, IfOk, OnOk};
ghost use Rattle.std.specs.List.{AllByRecursion};
ghost use Rattle.amf_graph.specs.Arena.{Names, array};
ghost use Rattle.amf_graph.specs.Building.{kept_node, closed};
ghost use Rattle.amf_graph.specs.Grafting.{node_value};
ghost use Rattle.amf_graph.specs.declared.limits.TheConstants.{MAX_COUNT};

use amf_graph::{Builder, Value};
use amf_wire::Memory;

/// Adds an array of these values. It gives up where there is no memory.
pub fn add_array(builder: &mut Builder, items: &[Value]) -> Result<Value, Memory>
    requires names { AllByRecursion (Names builder.old) items.now }
    requires room { length builder.old.nodes + length items.now < MAX_COUNT }
    ensures value { IfOk result (λ v. v ≡ node_value (length builder.old.nodes)) }
    ensures ok { OnOk result (builder.new ≡ kept_node builder.old (closed array [] items.now)) }
{
    let node = amf_service::add_array(builder, items)?;
    Ok(Value::Node(node))
}
