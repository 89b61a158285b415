//! Writes the nodes of a page into a sheet.

ghost use Rattle.std.specs.Prelude.{◌≡◌, ◌<◌, length, IfOk, OnOk};
ghost use Rattle.amf_wire.specs.Text.{IsText};
ghost use Rattle.amf_graph.specs.Arena.{IsTraitsIn};
ghost use Rattle.amf_graph.specs.Building.{no_arena, kept_text, kept_traits, kept_node, stored_traits};
ghost use Rattle.amf_sheet.specs.Telling.{untold, told, told_leaf, with_node};

use amf_graph::{Leaf, MAX_COUNT, MAX_SEALED, MAX_TRAITS, NodeId, Shape, TextId, TraitsId, Value};
use amf_sheet::Sheet;
use amf_wire::Memory;
use std::alloc::Global;
use std::hash::RandomState;
use std::marker::Model;

/// A sheet that is written, and how many texts and traits of it there are.
#[derive(Drop)]
pub(crate) struct Book {
    sheet: Sheet,
    texts: usize,
    traits: usize,
}

impl Model for Book {
    ghost use Rattle.std.specs.Prelude.{◌≡◌, length};
    ghost use Rattle.amf_graph.specs.Arena.{Arena};

    ghost Value = { Arena };

    ghost view = { λ b. b.sheet };

    ghost invariant = { λ b. (b.texts ≡ length b.sheet.texts) × (b.traits ≡ length b.sheet.traits) };
}

impl Book {
    /// Nothing yet.
    pub(crate) fn new(alloc: Global, keys: Option<RandomState>) -> Result<Book, Memory>
        ensures { IfOk result (λ book. book ≡ no_arena) }
    {
        Ok(Book {
            sheet: Sheet::new(alloc, keys)?,
            texts: 0,
            traits: 0,
        })
    }

    /// Keeps a text. It gives up where there is no room.
    pub(crate) fn text(&mut self, bytes: &[u8]) -> Result<TextId, Memory>
        requires { IsText bytes.now }
        ensures id { IfOk result (λ t. t.0 ≡ length self.old.texts) }
        ensures ok { OnOk result (self.new ≡ kept_text self.old bytes.now) }
    {
        if self.texts >= MAX_COUNT as usize || bytes.len() > MAX_COUNT as usize {
            return Err(Memory);
        }
        let text = self.sheet.text(bytes)?;
        self.texts += 1;
        Ok(text)
    }

    /// Keeps the traits of a class. It gives up where there is no room.
    pub(crate) fn traits(
        &mut self,
        class: TextId,
        dynamic: bool,
        sealed: &[TextId],
    ) -> Result<TraitsId, Memory>
        requires { IsTraitsIn self.old (stored_traits class dynamic sealed.now) }
        ensures id { IfOk result (λ t. t.0 ≡ length self.old.traits) }
        ensures ok { OnOk result (self.new ≡ kept_traits self.old (stored_traits class dynamic sealed.now)) }
    {
        if self.traits >= MAX_TRAITS as usize || sealed.len() > MAX_SEALED as usize {
            return Err(Memory);
        }
        let traits = self.sheet.traits(class, dynamic, sealed)?;
        self.traits += 1;
        Ok(traits)
    }

    /// Begins one more node.
    pub(crate) fn begin(&mut self) -> Result<(), Memory>
        requires { length self.old.nodes < MAX_COUNT }
        ensures { OnOk result (self.new ≡ kept_node self.old untold) }
    {
        self.sheet.begin()?;
        Ok(())
    }

    /// Tells a node without parts.
    pub(crate) fn tell_leaf(&mut self, node: NodeId, leaf: Leaf)
        requires { node.0 < length self.old.nodes }
        ensures { self.new ≡ with_node node.0 (told_leaf leaf) self.old }
    {
        self.sheet.tell_leaf(node, leaf);
    }

    /// Tells a node that takes parts.
    pub(crate) fn tell(
        &mut self,
        node: NodeId,
        shape: Shape,
        names: &[(TextId, Value)],
        values: &[Value],
    ) -> Result<(), Memory>
        requires { node.0 < length self.old.nodes }
        ensures { OnOk result (self.new ≡ with_node node.0 (told shape names.now values.now) self.old) }
    {
        self.sheet.tell(node, shape, names, values)
    }

    /// All that is written.
    pub(crate) fn into_sheet(self) -> Sheet
        ensures { result ≡ self }
    {
        self.sheet
    }
}
