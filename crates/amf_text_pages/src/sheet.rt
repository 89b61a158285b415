//! The sheet of a page, while it is gathered.

ghost use Rattle.std.specs.Prelude.{◌≡◌, OnOk};
ghost use Rattle.amf_text_trees.specs.Sheets.{begin, call, no_sheet};
ghost use Rattle.amf_text_pages.specs.Pages.{sheet_of};

use crate::page::{Node, Sheet};
use amf_wire::Memory;
use std::alloc::Global;

impl Sheet {
    /// One without nodes.
    pub fn new(alloc: Global) -> Sheet
        ensures { sheet_of result ≡ no_sheet }
    {
        Sheet {
            nodes: Vec::new(alloc),
            calls: Vec::new(alloc),
        }
    }

    /// A node begins.
    pub fn begin(&mut self, alloc: Global) -> Result<(), Memory>
        ensures { OnOk result (sheet_of self.new ≡ begin (sheet_of self.old)) }
    {
        let node = Node::Array(Vec::new(alloc), Vec::new(alloc));
        self.nodes.push(node)?;
        Ok(())
    }

    /// A label is called.
    pub fn call(&mut self, label: Vec<u8>) -> Result<(), Memory>
        ensures { OnOk result (sheet_of self.new ≡ call label.items (sheet_of self.old)) }
    {
        self.calls.push(label)?;
        Ok(())
    }
}
