//! The object that a plain call is answered where it has no result.

ghost use Rattle.std.specs.Prelude.{◌≡◌, ◌<◌, ◌≤◌, [], length, get_or, true, IfOk, OnOk, IsErrOf};
ghost use Rattle.std.specs.List.{AllByRecursion};
ghost use Rattle.amf_graph.specs.Arena.{IsTextId, Names, no_traits, object};
ghost use Rattle.amf_graph.specs.Building.{no_arena, kept_node, closed};
ghost use Rattle.amf_graph.specs.Grafting.{node_value};
ghost use Rattle.amf_graph.specs.Rooted.{content};
ghost use Rattle.amf_graph.specs.Views.{named};
ghost use Rattle.amf_graph.specs.declared.limits.TheConstants.{MAX_COUNT};
ghost use Rattle.flex_msgs.specs.Built.{HasRoomFor};
ghost use Rattle.amf_plain_calls.specs.FoundForms.{fault_arena};
ghost use Rattle.amf_answer_plan.specs.Kept.{FaultFits};
ghost use Rattle.amf_answer_plan.specs.PlainCalls.{fault_graph as fault_content};

use amf_answer_plan::messages::finished;
use amf_graph::{BuildEnd, Builder, NodeId, Part, Rooted, Shape, TextId, TraitsId, Value};
use amf_service::kept;
use amf_wire::Memory;
use flex_msgs::FaultText;
use std::alloc::Global;

/// Adds an object whole: with these members.
fn add_members(
    builder: &mut Builder,
    traits: TraitsId,
    members: &[(TextId, Value)],
) -> Result<NodeId, BuildEnd>
    requires there { traits.0 < length builder.old.traits }
    requires sealed { (get_or builder.old.traits traits.0 no_traits).sealed ≡ [] }
    requires dynamic { (get_or builder.old.traits traits.0 no_traits).dynamic ≡ true }
    requires names { AllByRecursion (λ p. IsTextId builder.old p.0 × Names builder.old p.1) (named members.now) }
    ensures id { IfOk result (λ n. n.0 ≡ length builder.old.nodes) }
    ensures ok { OnOk result (builder.new ≡ kept_node builder.old (closed (object traits.0) (named members.now) [])) }
    ensures full { HasRoomFor builder.old 0 0 1 → length members.now ≤ MAX_COUNT → IsErrOf result BuildEnd.Full → ⊥ }
{
    builder.is_built();
    let node = builder.open_node(Shape::Object(traits))?;
    for (name, value) in members {
        builder.put(node, Part::Named(*name, *value))?;
    }
    builder.close_node(node);
    Ok(node)
}

/// Adds the object of a fault: its code, its description and the level `error`.
fn add_fault(builder: &mut Builder, fault: &FaultText) -> Result<Value, BuildEnd>
    requires { FaultFits fault.now }
    ensures made { IfOk result (λ v. builder.old ≡ no_arena → (builder.new ≡ fault_arena fault.now) × (v ≡ node_value 0)) }
    ensures full { HasRoomFor builder.old 7 1 1 → IsErrOf result BuildEnd.Full → ⊥ }
{
    let class = builder.text(b"")?;
    let code = builder.text(b"code")?;
    let code_text = builder.text(fault.code.as_bytes())?;
    let description = builder.text(b"description")?;
    let description_text = builder.text(fault.text.as_bytes())?;
    let level = builder.text(b"level")?;
    let level_text = builder.text(b"error")?;
    let traits = builder.traits(class, true, &[])?;
    let node = add_members(
        builder,
        traits,
        &[
            (code, Value::Text(code_text)),
            (description, Value::Text(description_text)),
            (level, Value::Text(level_text)),
        ],
    )?;
    Ok(Value::Node(node))
}

/// The object of a fault. It gives up where there is no memory.
pub fn fault_graph(alloc: Global, fault: &FaultText) -> Result<Rooted, Memory>
    requires { FaultFits fault.now }
    ensures { IfOk result (λ graph. content graph ≡ fault_content fault.now) }
{
    let mut builder = Builder::new(alloc)?;
    let object = kept(add_fault(&mut builder, fault))?;
    Ok(finished(builder, object))
}
