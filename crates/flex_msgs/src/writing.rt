//! Texts, objects and messages that are added to a builder, each of them whole.

ghost use Rattle.std.specs.Prelude.{◌≡◌, [], ◌∷◌, ◌+◌, ◌<◌, ◌≤◌, length, map, get_or, IfOk, OnOk, IsErrOf};
ghost use Rattle.std.specs.List.{AllByRecursion};
ghost use Rattle.amf_wire.specs.Text.{IsText};
ghost use Rattle.amf_graph.specs.Arena.{IsTextId, Names, no_traits, array, object, value_content};
ghost use Rattle.amf_graph.specs.Building.{kept_node, closed};
ghost use Rattle.amf_graph.specs.declared.limits.TheConstants.{MAX_COUNT};
ghost use Rattle.amf_graph.specs.Views.{named};
ghost use Rattle.flex_msgs.specs.Built.{GrewBy, HasRoomFor, IsShort, client_texts};
ghost use Rattle.flex_msgs.specs.Writing.{AreMembersOf, WritesNames, WritesOne, AreValues};
ghost use Rattle.flex_msgs.specs.Classes.{class_traits};
ghost use Rattle.flex_msgs.specs.Messages.{headers_node, items_node, message_node, text_of, client_value};

use crate::class::Class;
use amf_graph::{BuildEnd, Builder, NodeId, Part, Shape, TextId, TraitsId, Value};
use amf_wire::Name;
use std::alloc::Global;

/// Adds an object whole: with these sealed values and members (AMF 3, 3.12).
pub fn add_object(
    builder: &mut Builder,
    traits: TraitsId,
    sealed: &[Value],
    members: &[(TextId, Value)],
) -> Result<NodeId, BuildEnd>
    requires there { traits.0 < length builder.old.traits }
    requires sealed { length sealed.now ≡ length (get_or builder.old.traits traits.0 no_traits).sealed }
    requires members { AreMembersOf (get_or builder.old.traits traits.0 no_traits).dynamic members.now }
    requires values { AllByRecursion (Names builder.old) sealed.now }
    requires names { AllByRecursion (λ p. IsTextId builder.old p.0 × Names builder.old p.1) (named members.now) }
    ensures id { IfOk result (λ n. n.0 ≡ length builder.old.nodes) }
    ensures ok { OnOk result (builder.new ≡ kept_node builder.old (closed (object traits.0) (named members.now) sealed.now)) }
    ensures full { HasRoomFor builder.old 0 0 1 → length sealed.now + length members.now ≤ MAX_COUNT → IsErrOf result BuildEnd.Full → ⊥ }
{
    builder.is_built();
    let node = builder.open_node(Shape::Object(traits))?;
    for value in sealed {
        builder.put(node, Part::Item(*value))?;
    }
    for (name, value) in members {
        builder.put(node, Part::Named(*name, *value))?;
    }
    builder.close_node(node);
    Ok(node)
}

/// Adds the headers of a message: an object with the one member DSId.
pub fn add_headers(builder: &mut Builder, ds_id: &Name) -> Result<Value, BuildEnd>
    requires { IsText ds_id.now }
    ensures ok { IfOk result (λ v. WritesOne builder.old builder.new v (λ h. headers_node ds_id.now)) }
    ensures names { IfOk result (λ v. Names builder.new v) }
    ensures grew { OnOk result (GrewBy builder.old builder.new 3 1 1) }
    ensures full { HasRoomFor builder.old 3 1 1 → IsShort ds_id.now → IsErrOf result BuildEnd.Full → ⊥ }
{
    let class = builder.text(b"")?;
    let name = builder.text(b"DSId")?;
    let text = builder.text(ds_id.as_bytes())?;
    let traits = builder.traits(class, true, &[])?;
    let node = add_object(builder, traits, &[], &[(name, Value::Text(text))])?;
    Ok(Value::Node(node))
}

/// Adds a text.
pub fn add_text(builder: &mut Builder, text: &Name) -> Result<Value, BuildEnd>
    requires { IsText text.now }
    ensures writes { OnOk result (WritesNames builder.old builder.new) }
    ensures value { IfOk result (λ v. AreValues builder.new (v ∷ []) (λ h. text_of text.now ∷ [])) }
    ensures grew { OnOk result (GrewBy builder.old builder.new 1 0 0) }
    ensures full { HasRoomFor builder.old 1 0 0 → IsShort text.now → IsErrOf result BuildEnd.Full → ⊥ }
{
    Ok(Value::Text(builder.text(text.as_bytes())?))
}

/// Adds the text of a client, which is null where it is empty.
pub(crate) fn add_client(builder: &mut Builder, client: &Name) -> Result<Value, BuildEnd>
    requires { IsText client.now }
    ensures writes { OnOk result (WritesNames builder.old builder.new) }
    ensures value { IfOk result (λ v. AreValues builder.new (v ∷ []) (λ h. client_value client.now ∷ [])) }
    ensures grew { OnOk result (GrewBy builder.old builder.new (client_texts client.now) 0 0) }
    ensures full { HasRoomFor builder.old (client_texts client.now) 0 0 → IsShort client.now → IsErrOf result BuildEnd.Full → ⊥ }
{
    if client.as_bytes().is_empty() {
        Ok(Value::Null)
    } else {
        add_text(builder, client)
    }
}

/// Adds a message whole: with these values, in the order of the names of its class.
pub fn add_message(
    alloc: Global,
    builder: &mut Builder,
    class: Class,
    values: &[Value],
) -> Result<Value, BuildEnd>
    requires count { length values.now ≡ length (class_traits class).sealed }
    requires values { AllByRecursion (Names builder.old) values.now }
    ensures ok { IfOk result (λ v. WritesOne builder.old builder.new v (λ h. message_node (class_traits class) (map (value_content h) values.now))) }
    ensures names { IfOk result (λ v. Names builder.new v) }
    ensures grew { OnOk result (GrewBy builder.old builder.new (1 + length values.now) 1 1) }
    ensures full { HasRoomFor builder.old (1 + length values.now) 1 1 → IsErrOf result BuildEnd.Full → ⊥ }
{
    builder.is_built();
    let name = builder.text(class.name())?;
    let mut sealed = Vec::new(alloc);
    for place in 0..class.count() {
        sealed.push(builder.text(class.member(place))?)?;
    }
    let traits = builder.traits(name, false, &sealed)?;
    Ok(Value::Node(add_object(builder, traits, values, &[])?))
}

/// Adds an array of these items.
pub(crate) fn add_array(builder: &mut Builder, items: &[Value]) -> Result<Value, BuildEnd>
    requires { AllByRecursion (Names builder.old) items.now }
    ensures ok { IfOk result (λ v. WritesOne builder.old builder.new v (λ h. items_node (map (value_content h) items.now))) }
    ensures grew { OnOk result (GrewBy builder.old builder.new 0 0 1) }
    ensures full { HasRoomFor builder.old 0 0 1 → length items.now ≤ MAX_COUNT → IsErrOf result BuildEnd.Full → ⊥ }
{
    builder.is_built();
    let node = builder.open_node(Shape::Array)?;
    for item in items {
        builder.put(node, Part::Item(*item))?;
    }
    builder.close_node(node);
    Ok(Value::Node(node))
}
