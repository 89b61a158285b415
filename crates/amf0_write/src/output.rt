ghost use Rattle.std.specs.Prelude.{◌≡◌, ◌<◌, ◌^◌, ◌∷◌, [], ◌++◌, length, take, true, false, OnOk, OnErr, IfOk};
ghost use Rattle.std.specs.Int.{to_be_bytes, w16, w32, w64};
ghost use Rattle.amf0_spelling.specs.Tables0.{add_node0, add_done0};
ghost use Rattle.amf0_write.specs.Writes0.{tables_of, Adds, AddsLoose, Keeps, date_bytes, document_bytes, object_front};

use amf_graph::NodeId;
use amf_tables::WriterTables;
use amf_wire::{Memory, Pattern};
use std::alloc::Global;
use std::mem;

/// What has been written: the tables that it leads to, the nodes that were entered without a place since the tables were
/// taken, and the bytes.
#[derive(Drop)]
pub(crate) struct Output {
    pub(crate) alloc: Global,
    pub(crate) tables: WriterTables,
    pub(crate) loose: Vec<NodeId>,
    pub(crate) bytes: Vec<u8>,
}

impl Output {
    /// The tables and the bytes, taken from where they stood.
    pub(crate) fn taking(
        alloc: Global,
        tables: &mut WriterTables,
        bytes: &mut Vec<u8>,
    ) -> Result<Output, Memory>
        ensures tables { IfOk result (λ output. output.tables ≡ tables.old) }
        ensures loose { IfOk result (λ output. output.loose.items ≡ []) }
        ensures bytes { IfOk result (λ output. output.bytes ≡ bytes.old) }
        ensures untouched { OnErr result ((tables.new ≡ tables.old) × (bytes.new ≡ bytes.old)) }
    {
        let empty = WriterTables::new(alloc)?;
        Ok(Output {
            alloc,
            tables: mem::replace(tables, empty),
            loose: Vec::new(alloc),
            bytes: mem::replace(bytes, Vec::new(alloc)),
        })
    }

    /// The tables and the bytes, back to where they stood: after an end the first bytes alone, so many as there were. It gives
    /// the nodes that were entered without a place.
    pub(crate) fn put_back(
        mut self,
        has_ended: bool,
        start: usize,
        tables: &mut WriterTables,
        bytes: &mut Vec<u8>,
    ) -> Vec<NodeId>
        ensures tables { tables.new ≡ self.tables }
        ensures loose { result ≡ self.loose }
        ensures whole { has_ended ≡ false → bytes.new ≡ self.bytes }
        ensures cut { has_ended ≡ true → bytes.new.items ≡ take start self.bytes.items }
    {
        if has_ended {
            self.bytes.truncate(start);
        }
        *tables = self.tables;
        *bytes = self.bytes;
        self.loose
    }

    /// Enters a node that an index can name.
    pub(crate) fn enter(&mut self, node: NodeId) -> Result<(), Memory>
        ensures ok { OnOk result (tables_of self.new ≡ add_node0 (tables_of self.old) node.0) }
        ensures loose { self.new.loose ≡ self.old.loose }
        ensures bytes { self.new.bytes ≡ self.old.bytes }
    {
        self.tables.add_node(node)
    }

    /// Enters a node that no index can name.
    pub(crate) fn enter_loose(&mut self, node: NodeId) -> Result<(), Memory>
        ensures ok { OnOk result (tables_of self.new ≡ add_done0 (tables_of self.old) node.0) }
        ensures loose { OnOk result (self.new.loose.items ≡ self.old.loose.items ++ node ∷ []) }
        ensures bytes { self.new.bytes ≡ self.old.bytes }
    {
        self.tables.add_done(node)?;
        self.loose.push(node)?;
        Ok(())
    }

    pub(crate) fn byte(&mut self, byte: u8) -> Result<(), Memory>
        ensures adds { OnOk result (Adds (byte ∷ []) self.old self.new) }
        ensures keeps { Keeps self.old self.new }
    {
        self.bytes.push(byte)?;
        Ok(())
    }

    /// Bytes as they are.
    pub(crate) fn raw(&mut self, bytes: &[u8]) -> Result<(), Memory>
        ensures adds { OnOk result (Adds bytes.now self.old self.new) }
        ensures keeps { Keeps self.old self.new }
    {
        self.bytes.extend_from_slice(bytes)?;
        Ok(())
    }

    /// The bits of a double (2.2).
    pub(crate) fn double(&mut self, double: Pattern) -> Result<(), Memory>
        ensures adds { OnOk result (Adds (to_be_bytes w64 double.0) self.old self.new) }
        ensures keeps { Keeps self.old self.new }
    {
        self.raw(&double.0.to_be_bytes())
    }

    /// A count of 32 bits (1.3).
    pub(crate) fn count(&mut self, count: u32) -> Result<(), Memory>
        ensures adds { OnOk result (Adds (to_be_bytes w32 count) self.old self.new) }
        ensures keeps { Keeps self.old self.new }
    {
        self.raw(&count.to_be_bytes())
    }

    /// A marker, and a count of 32 bits behind it (1.3).
    pub(crate) fn counted(&mut self, marker: u8, count: usize) -> Result<(), Memory>
        requires { count < 2 ^ 32 }
        ensures adds { OnOk result (Adds (marker ∷ to_be_bytes w32 count) self.old self.new) }
        ensures keeps { Keeps self.old self.new }
    {
        self.byte(marker)?;
        self.count(count as u32)
    }

    /// A text behind its length of 16 bits (1.3.1).
    pub(crate) fn short(&mut self, text: &[u8]) -> Result<(), Memory>
        requires { length text.now < 2 ^ 16 }
        ensures adds { OnOk result (Adds (to_be_bytes w16 (length text.now) ++ text.now) self.old self.new) }
        ensures keeps { Keeps self.old self.new }
    {
        self.raw(&(text.len() as u16).to_be_bytes())?;
        self.raw(text)
    }

    /// A text behind its length of 32 bits (1.3.1).
    pub(crate) fn long(&mut self, text: &[u8]) -> Result<(), Memory>
        requires { length text.now < 2 ^ 32 }
        ensures adds { OnOk result (Adds (to_be_bytes w32 (length text.now) ++ text.now) self.old self.new) }
        ensures keeps { Keeps self.old self.new }
    {
        self.count(text.len() as u32)?;
        self.raw(text)
    }

    /// A date (2.13).
    pub(crate) fn date(&mut self, node: NodeId, milliseconds: Pattern) -> Result<(), Memory>
        ensures adds { OnOk result (AddsLoose node (date_bytes milliseconds.0) self.old self.new) }
        ensures keeps { Keeps self.old self.new }
    {
        self.enter_loose(node)?;
        self.byte(0x0B)?;
        self.double(milliseconds)?;
        self.raw(b"\x00\x00")
    }

    /// An XML document (2.17).
    pub(crate) fn document(&mut self, node: NodeId, text: &[u8]) -> Result<(), Memory>
        requires { length text.now < 2 ^ 32 }
        ensures adds { OnOk result (AddsLoose node (document_bytes text.now) self.old self.new) }
        ensures keeps { Keeps self.old self.new }
    {
        self.enter_loose(node)?;
        self.byte(0x0F)?;
        self.long(text)
    }

    /// The marker of an object, and its class: without a name where the class is empty (2.5, 2.18).
    pub(crate) fn object_front(&mut self, class: &[u8]) -> Result<(), Memory>
        requires { length class.now < 2 ^ 16 }
        ensures adds { OnOk result (Adds (object_front class.now) self.old self.new) }
        ensures keeps { Keeps self.old self.new }
    {
        if class.is_empty() {
            return self.byte(0x03);
        }
        self.byte(0x10)?;
        self.short(class)
    }
}
