ghost use Rattle.std.specs.Prelude.{◌≡◌, ◌+◌, ◌<◌, ◌≤◌, ◌^◌, ◌∷◌, IfOk, OnOk};
ghost use Rattle.amf_io.specs.Cursor.{place};
ghost use Rattle.amf_io.specs.ReadEnds.{IsPlaced, Goes};
ghost use Rattle.amf_graph.specs.declared.value.Value.{Value as Stored};
ghost use Rattle.amf_wire.specs.Style.{free};
ghost use Rattle.amf_wire_fields.specs.Room.{left_of};
ghost use Rattle.amf_packet.specs.Content.{body_of};
ghost use Rattle.amf_packet.specs.LayoutPacket.{sized_layout, body_layout};
ghost use Rattle.amf_packet.specs.Packet.{BodyBy, SizedBy};
ghost use Rattle.amf_packet.specs.PacketAnswer.{body_weight};
ghost use Rattle.amf_packet.specs.ReadParts.{ReadsFueled};
ghost use Rattle.amf_packet.specs.Items.{IsCallOf, IsBodyOf};

use crate::Body;
use crate::read_field::read_length;
use amf_graph::{Builder, NodeView, Rooted, Value};
use amf_io::{Cursor, ReadEnd, Source};
use amf0_read::read0;
use amf0_spelling::{Form, Tables0};
use std::alloc::Global;
use std::hash::RandomState;

/// Reads the length of a value, and then the value, with fresh tables.
pub fn read_body<S: Source>(
    alloc: Global,
    keys: Option<RandomState>,
    cursor: &mut Cursor<'_, S>,
) -> Result<Body, ReadEnd>
    requires room { left_of cursor.old < 2 ^ 27 }
    ensures goes { Goes S.Source cursor.old cursor.new result }
    ensures reads { ReadsFueled S.tells S.left (λ b. SizedBy free (body_of b)) sized_layout cursor.old cursor.new result }
    ensures placed { OnOk result (IsPlaced cursor.new) }
    ensures weighs { IfOk result (λ b. place cursor.old + body_weight b ≤ place cursor.new) }
{
    read_length(cursor)?;
    read_value(alloc, keys, cursor)
}

/// Reads a value with fresh tables.
fn read_value<S: Source>(
    alloc: Global,
    keys: Option<RandomState>,
    cursor: &mut Cursor<'_, S>,
) -> Result<Body, ReadEnd>
    requires room { left_of cursor.old < 2 ^ 27 }
    ensures goes { Goes S.Source cursor.old cursor.new result }
    ensures reads { ReadsFueled S.tells S.left (λ b. BodyBy free (body_of b).form (body_of b).graph) body_layout cursor.old cursor.new result }
    ensures placed { OnOk result (IsPlaced cursor.new) }
    ensures weighs { IfOk result (λ b. place cursor.old + body_weight b ≤ place cursor.new) }
{
    // What is true of every cursor.
    let _start = cursor.at();
    let mut builder = Builder::keyed(alloc, keys)?;
    let mut tables = Tables0::new(alloc)?;
    let read = read0(alloc, cursor, &mut builder, &mut tables)?;
    let graph = builder.whole(read.value);
    Ok(formed(graph, read.form))
}

/// The body of a graph in this form: of a call the graph is that of the one item.
fn formed(graph: Rooted, form: Form) -> Body
    requires call { form ≡ Form.Call → (item : Stored) × IsCallOf graph item }
    ensures { IsBodyOf graph form result }
{
    match form {
        Form::Call => Body::Call(only_item(graph)),
        Form::Amf3 => Body::Amf3(graph),
        Form::Plain => Body::Plain(graph),
    }
}

/// The graph with the one item of its root as root.
fn only_item(graph: Rooted) -> Rooted
    requires call { (item : Stored) × IsCallOf graph item }
    ensures arena { result.arena ≡ graph.arena }
    ensures root { (item : Stored) → IsCallOf graph item → result.root ≡ item }
{
    // What is true of every graph.
    graph.is_finished();
    let item = first_item(&graph);
    graph.rooted_at(item)
}

/// The first item of the root.
fn first_item(graph: &Rooted) -> Value
    requires call { (item : Stored) × IsCallOf graph.now item }
    ensures { (item : Stored) → IsCallOf graph.now item → result ≡ item }
{
    let Value::Node(node) = graph.root() else {
        unreachable!();
    };
    let NodeView::Array { items, .. } = graph.node(node) else {
        unreachable!();
    };
    items[0]
}
