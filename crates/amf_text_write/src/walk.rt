ghost use Rattle.std.specs.Prelude.{◌≡◌, ◌<◌, [], ◌∷◌, true, length, OnOk};
ghost use Rattle.json.specs.Token as spec;
ghost use Rattle.amf_graph.specs.Arena.{Names, IsTextId, text_at};
ghost use Rattle.amf_text.specs.Scalars.{is_plain};
ghost use Rattle.amf_text.specs.Told as told;
ghost use Rattle.amf_text_write.specs.Laid.{with_more};
ghost use Rattle.amf_text_write.specs.PartsInWay.{piece_in, value_in, node_in};
ghost use Rattle.amf_text_write.specs.Pieces.{IsPiece, ArePieces};
ghost use Rattle.amf_text_write.specs.Tells.{Tells};
ghost use Rattle.amf_text_write.specs.Walk.{left_in, Steps};
ghost use Rattle.amf_text_write.specs.Ways.{arena_in, IsWayOf};
ghost use Rattle.amf_graph.specs.declared.value.Value.TheVariants.{Node};
ghost use Rattle.amf_text_write.specs.declared.waiting.Piece.TheVariants as variant;

use crate::layout::Output;
use crate::waiting::{Piece, put};
use crate::way::Way;
use amf_graph::{NodeId, TextId, Value};
use amf_wire::Memory;

/// A graph from one of its values on.
impl Output {
    /// A name that is UTF-8, as a key.
    fn name(&mut self, name: TextId, way: &Way<'_>) -> Result<(), Memory>
        requires there { IsTextId (arena_in way.now) name.0 }
        requires plain { is_plain (text_at (arena_in way.now) name.0) ≡ true }
        ensures { OnOk result (self.new ≡ with_more self.old (spec.key (text_at (arena_in way.now) name.0) ∷ [])) }
    {
        way.graph.is_finished();
        match str::from_utf8(way.graph.text(name)) {
            Ok(name) => self.key(name),
            Err(_) => unreachable!(),
        }
    }

    /// A node: its label where it is named by that, else its front, and the rest waits.
    fn node(
        &mut self,
        node: NodeId,
        levels: u8,
        way: &Way<'_>,
        waiting: &mut Vec<Piece>,
    ) -> Result<(), Memory>
        requires { node.0 < length (arena_in way.now).nodes }
        ensures { OnOk result (Steps way.now (piece_in way.now (variant.Value levels (Node node))) waiting.old.items waiting.new.items self.old self.new) }
    {
        if way.is_called(node, levels) {
            return self.called(node, way);
        }
        self.begin_node(node, levels - 1, way, waiting)
    }

    /// A value: a node as above, any other as a whole.
    fn value(
        &mut self,
        value: Value,
        levels: u8,
        way: &Way<'_>,
        waiting: &mut Vec<Piece>,
    ) -> Result<(), Memory>
        requires { Names (arena_in way.now) value }
        ensures { OnOk result (Steps way.now (piece_in way.now (variant.Value levels value)) waiting.old.items waiting.new.items self.old self.new) }
    {
        match value {
            Value::Node(node) => self.node(node, levels, way, waiting),
            _ => self.leaf(way.alloc, way.bare, way.graph, value),
        }
    }

    /// A piece. What is behind the front of a node waits.
    fn piece(&mut self, piece: Piece, way: &Way<'_>, waiting: &mut Vec<Piece>) -> Result<(), Memory>
        requires { IsPiece (arena_in way.now) piece }
        ensures { OnOk result (Steps way.now (piece_in way.now piece) waiting.old.items waiting.new.items self.old self.new) }
    {
        way.graph.is_finished();
        match piece {
            Piece::Token(token) => self.token(token),
            Piece::Key(name) => self.name(name, way),
            Piece::Name(name) => self.text(way.alloc, way.graph.text(name)),
            Piece::Value(levels, value) => self.value(value, levels, way, waiting),
        }
    }

    /// All that waits.
    pub(crate) fn drain(&mut self, way: &Way<'_>, waiting: &mut Vec<Piece>) -> Result<(), Memory>
        requires { ArePieces (arena_in way.now) waiting.old.items }
        ensures { (w : told.Way) → IsWayOf way.now w → OnOk result (Tells (left_in way.now waiting.old.items w) self.old self.new) }
    {
        while let Some(piece) = waiting.pop() {
            self.piece(piece, way, waiting)?;
        }
        Ok(())
    }

    /// A value and all that it leads to, with so many levels of nodes.
    pub(crate) fn tree(&mut self, value: Value, levels: u8, way: &Way<'_>) -> Result<(), Memory>
        requires { Names (arena_in way.now) value }
        ensures { (w : told.Way) → IsWayOf way.now w → OnOk result (Tells (value_in way.now levels value w) self.old self.new) }
    {
        let mut waiting = Vec::new(way.alloc);
        put(Piece::Value(levels, value), &mut waiting)?;
        self.drain(way, &mut waiting)
    }

    /// What a node holds and all that this leads to, with so many levels of nodes in it.
    pub(crate) fn node_tree(
        &mut self,
        node: NodeId,
        levels: u8,
        way: &Way<'_>,
    ) -> Result<(), Memory>
        requires { node.0 < length (arena_in way.now).nodes }
        ensures { (w : told.Way) → IsWayOf way.now w → OnOk result (Tells (node_in way.now levels node.0 w) self.old self.new) }
    {
        let mut waiting = Vec::new(way.alloc);
        self.begin_node(node, levels, way, &mut waiting)?;
        self.drain(way, &mut waiting)
    }
}
