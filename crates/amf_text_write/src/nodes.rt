ghost use Rattle.std.specs.Prelude.{◌≡◌, ◌<◌, length, OnOk};
ghost use Rattle.amf_graph.specs.Arena.{IsTextId};
ghost use Rattle.amf_iso.specs.Contents.{AreValues, ArePairs};
ghost use Rattle.amf_text.specs.Told as told;
ghost use Rattle.amf_text_write.specs.OpenedNodes.{OpensWrapper, OpensDictionary, OpensList};
ghost use Rattle.amf_text_write.specs.PartsInWay.{OpensIn, node_in, vector_in, array_in};
ghost use Rattle.amf_text_write.specs.Ways.{arena_in};

use crate::layout::Output;
use crate::members::{put_by_name, put_entry_list, put_flag, put_list};
use crate::waiting::{Piece, put, put_values};
use crate::way::Way;
use amf_graph::{NodeId, NodeView, TextId, Value, Wrapped};
use amf_wire::Memory;
use json::Token;

/// The key that tells a wrapper.
fn wrapper_tag(class: Wrapped) -> &'static str
    ensures { result.now ≡ told.wrapper_tag class }
{
    match class {
        Wrapped::ArrayCollection => "$ArrayCollection",
        Wrapped::ArrayList => "$ArrayList",
        Wrapped::ObjectProxy => "$ObjectProxy",
    }
}

/// Nodes, up to their first values.
impl Output {
    /// The front of a node; what is behind it waits. So many levels are left for the nodes in it.
    pub(crate) fn begin_node(
        &mut self,
        node: NodeId,
        levels: u8,
        way: &Way<'_>,
        waiting: &mut Vec<Piece>,
    ) -> Result<(), Memory>
        requires { node.0 < length (arena_in way.now).nodes }
        ensures { OnOk result (OpensIn way.now (node_in way.now levels node.0) waiting.old.items waiting.new.items self.old self.new) }
    {
        way.graph.is_finished();
        match way.graph.node(node) {
            NodeView::XmlDocument(text) => self.text_alone(way.alloc, "$xmldoc", text),
            NodeView::Xml(text) => self.text_alone(way.alloc, "$xml", text),
            NodeView::Date(time) => self.pattern_alone(way.alloc, "$date", time),
            NodeView::Bytes(bytes) => self.hex_alone(way.alloc, "$bytes", bytes),
            NodeView::Ints { fixed, items } => self.ints(fixed, items),
            NodeView::Uints { fixed, items } => self.uints(fixed, items),
            NodeView::Doubles { fixed, items } => self.doubles(way.alloc, fixed, items),
            NodeView::Array { items, names } => self.array(items, names, levels, way, waiting),
            NodeView::Object {
                traits,
                sealed,
                members,
            } => self.object(traits, sealed, members, levels, way, waiting),
            NodeView::Wrapper { class, value } => self.wrapper(class, value, levels, waiting),
            NodeView::Values { fixed, of, items } => {
                self.vector(fixed, of, items, levels, way, waiting)
            }
            NodeView::Dictionary { weak, entries } => {
                self.dictionary(weak, entries, levels, waiting)
            }
        }
    }

    fn wrapper(
        &mut self,
        class: Wrapped,
        value: Value,
        levels: u8,
        waiting: &mut Vec<Piece>,
    ) -> Result<(), Memory>
        ensures { OpensWrapper levels class value result waiting.old.items waiting.new.items self.old self.new }
    {
        put(Piece::Token(Token::EndObject), waiting)?;
        put(Piece::Value(levels, value), waiting)?;
        self.token(Token::BeginObject)?;
        self.key(wrapper_tag(class))
    }

    fn vector(
        &mut self,
        fixed: bool,
        of: TextId,
        items: &[Value],
        levels: u8,
        way: &Way<'_>,
        waiting: &mut Vec<Piece>,
    ) -> Result<(), Memory>
        requires of { IsTextId (arena_in way.now) of.0 }
        requires items { AreValues (arena_in way.now) items.now }
        ensures { OnOk result (OpensIn way.now (vector_in way.now levels fixed of items.now) waiting.old.items waiting.new.items self.old self.new) }
    {
        way.graph.is_finished();
        put(Piece::Token(Token::EndObject), waiting)?;
        put_list(levels, items, waiting)?;
        self.token(Token::BeginObject)?;
        self.flag_member("$fixed", fixed)?;
        self.key("$type")?;
        self.text(way.alloc, way.graph.text(of))?;
        self.key("$values")
    }

    fn dictionary(
        &mut self,
        weak: bool,
        entries: &[(Value, Value)],
        levels: u8,
        waiting: &mut Vec<Piece>,
    ) -> Result<(), Memory>
        ensures { OpensDictionary levels weak entries.now result waiting.old.items waiting.new.items self.old self.new }
    {
        put(Piece::Token(Token::EndObject), waiting)?;
        put_flag("$weak", weak, waiting)?;
        put_entry_list(levels, entries, waiting)?;
        self.token(Token::BeginObject)?;
        self.key("$dictionary")
    }

    /// A list of values, up to the first.
    fn list(&mut self, items: &[Value], levels: u8, waiting: &mut Vec<Piece>) -> Result<(), Memory>
        ensures { OpensList levels items.now result waiting.old.items waiting.new.items self.old self.new }
    {
        put(Piece::Token(Token::EndArray), waiting)?;
        put_values(levels, items, waiting)?;
        self.token(Token::BeginArray)
    }

    fn array(
        &mut self,
        items: &[Value],
        names: &[(TextId, Value)],
        levels: u8,
        way: &Way<'_>,
        waiting: &mut Vec<Piece>,
    ) -> Result<(), Memory>
        requires items { AreValues (arena_in way.now) items.now }
        requires names { ArePairs (arena_in way.now) names.now }
        ensures { OnOk result (OpensIn way.now (array_in way.now levels names.now items.now) waiting.old.items waiting.new.items self.old self.new) }
    {
        if names.is_empty() {
            return self.list(items, levels, waiting);
        }
        put(Piece::Token(Token::EndObject), waiting)?;
        put_by_name(levels, names, way, waiting)?;
        put(Piece::Token(Token::Key("$names")), waiting)?;
        put_list(levels, items, waiting)?;
        self.token(Token::BeginObject)?;
        self.key("$array")
    }
}
