ghost use Rattle.std.specs.Prelude.{◌≡◌, IfOk, OnOk, OnErr, slice_get};
ghost use Rattle.std.specs.Option.{option_map};
ghost use Rattle.amf_tables.specs.TableParts.{node_number};
ghost use Rattle.amf0_spelling.specs.KeptTables0.{no_kept_tables0};
ghost use Rattle.amf0_spelling.specs.TableParts0.{shown_tables, kept_node0, kept_switch};

use amf_graph::NodeId;
use amf_tables::Tables3;
use amf_wire::Memory;
use std::alloc::Global;

/// The reference tables of a reader of AMF 0 (2.9): which node of the graph an index names, and the one set of AMF 3
/// tables for all values behind the marker that switches to AMF 3 (3.1).
pub struct Tables0 {
    /// The tables of the values in AMF 3.
    pub amf3: Tables3,
    nodes: Vec<NodeId>,
    switched: bool,
}

impl Drop for Tables0 {
    /// Lets its parts go. Written out, it is proved once; what is derived is proved at each place where one is let go.
    fn drop(self) {
        let Tables0 {
            amf3: _,
            nodes: _,
            switched: _,
        } = self;
    }
}

impl Tables0 {
    /// Tables without entries. It gives up where there is no memory.
    pub fn new(alloc: Global) -> Result<Tables0, Memory>
        ensures { IfOk result (λ tables. shown_tables tables ≡ no_kept_tables0) }
    {
        Ok(Tables0 {
            amf3: Tables3::new(alloc)?,
            nodes: Vec::new(alloc),
            switched: false,
        })
    }

    /// Enters a node. After an error nothing has changed.
    pub fn push_node(&mut self, node: NodeId) -> Result<(), Memory>
        ensures ok { OnOk result (shown_tables self.new ≡ kept_node0 (shown_tables self.old) node.0) }
        ensures err { OnErr result (shown_tables self.new ≡ shown_tables self.old) }
    {
        self.nodes.push(node)?;
        Ok(())
    }

    /// The node that an index names: `None` exactly past the last one. It takes no memory.
    pub fn node_at(&self, index: u32) -> Option<NodeId>
        ensures { option_map node_number result ≡ slice_get (shown_tables self.now).nodes index }
    {
        self.nodes.get(index as usize).copied()
    }

    /// Keeps that a marker switched to AMF 3.
    pub fn switch(&mut self)
        ensures { shown_tables self.new ≡ kept_switch (shown_tables self.old) }
    {
        self.switched = true;
    }

    /// Whether a marker has switched to AMF 3 so far.
    pub fn has_switched(&self) -> bool
        ensures { result ≡ (shown_tables self.now).switched }
    {
        self.switched
    }
}
