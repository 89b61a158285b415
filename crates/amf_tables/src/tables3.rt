ghost use Rattle.std.specs.Prelude.{◌≡◌, IfOk, OnOk, OnErr, slice_get};
ghost use Rattle.std.specs.Option.{option_map, option_and_then};
ghost use Rattle.amf_tables.specs.TableParts.{text_number, node_number, traits_number};
ghost use Rattle.amf3_spelling.specs.KeptTables.{no_kept_tables, kept_text_place, kept_entry, kept_node_place};
ghost use Rattle.amf3_spelling.specs.KeptTables.{plain, external, traits_place, external_class};

use crate::node_run::NodeRun;
use crate::traits_entry::TraitsEntry;
use amf_graph::{NodeId, TextId, TraitsId, Wrapped};
use amf_wire::Memory;
use std::alloc::Global;
use std::marker::Model;

/// The reference tables of a reader of AMF 3 (2.2): which text, traits or node of the graph an
/// index names.
pub struct Tables3 {
    texts: Vec<TextId>,
    traits: Vec<TraitsEntry>,
    nodes: NodeRun,
}

impl Drop for Tables3 {
    /// Lets its parts go. Written out, it is proved once; what is derived is proved at each place where one is let go.
    fn drop(self) {
        let Tables3 {
            texts: _,
            traits: _,
            nodes: _,
        } = self;
    }
}

impl Model for Tables3 {
    ghost use Rattle.amf3_spelling.specs.KeptTables.{KeptTables};

    ghost Value = { KeptTables };

    ghost use Rattle.amf_tables.specs.TableParts.{kept_tables};

    ghost view = { λ t. kept_tables t.texts.items t.traits.items t.nodes };
}

impl Tables3 {
    /// Tables without entries. It gives up where there is no memory.
    pub fn new(alloc: Global) -> Result<Tables3, Memory>
        ensures { IfOk result (λ tables. tables ≡ no_kept_tables) }
    {
        Ok(Tables3 {
            texts: Vec::new(alloc),
            traits: Vec::new(alloc),
            nodes: NodeRun::new(alloc),
        })
    }

    /// Enters a text. After an error nothing has changed.
    pub fn push_text(&mut self, text: TextId) -> Result<(), Memory>
        ensures ok { OnOk result (self.new ≡ kept_text_place self.old text.0) }
        ensures err { OnErr result (self.new ≡ self.old) }
    {
        self.texts.push(text)?;
        Ok(())
    }

    /// Enters a node. After an error nothing has changed.
    #[inline(always)]
    pub fn push_node(&mut self, node: NodeId) -> Result<(), Memory>
        ensures ok { OnOk result (self.new ≡ kept_node_place self.old node.0) }
        ensures err { OnErr result (self.new ≡ self.old) }
    {
        self.nodes.push(node)
    }

    /// Enters traits of a class that is not externalizable (AMF 3, 3.12). After an error nothing has changed.
    pub fn push_traits(&mut self, traits: TraitsId) -> Result<(), Memory>
        ensures ok { OnOk result (self.new ≡ kept_entry self.old (plain traits.0)) }
        ensures err { OnErr result (self.new ≡ self.old) }
    {
        self.traits.push(TraitsEntry::plain(traits))?;
        Ok(())
    }

    /// Enters the traits of an externalizable class. After an error nothing has changed.
    pub fn push_external(&mut self, traits: TraitsId, class: Wrapped) -> Result<(), Memory>
        ensures ok { OnOk result (self.new ≡ kept_entry self.old (external traits.0 class)) }
        ensures err { OnErr result (self.new ≡ self.old) }
    {
        self.traits.push(TraitsEntry::external(traits, class))?;
        Ok(())
    }

    /// The text that an index names: `None` exactly past the last one. It takes no memory.
    pub fn text_at(&self, index: u32) -> Option<TextId>
        ensures { option_map text_number result ≡ slice_get self.now.texts index }
    {
        self.texts.get(index as usize).copied()
    }

    /// The node that an index names: `None` exactly past the last one. It takes no memory.
    pub fn node_at(&self, index: u32) -> Option<NodeId>
        ensures { option_map node_number result ≡ slice_get self.now.nodes index }
    {
        self.nodes.get(index)
    }

    /// The traits that an index names: `None` exactly past the last ones. It takes no memory.
    pub fn traits_at(&self, index: u32) -> Option<TraitsId>
        ensures { option_map traits_number result ≡ option_map traits_place (slice_get self.now.traits index) }
    {
        let entry = self.traits.get(index as usize)?;
        Some(entry.traits())
    }

    /// The externalizable class that an index names: `None` exactly at traits of another class, and
    /// past the last ones. It takes no memory.
    pub fn wrapped_at(&self, index: u32) -> Option<Wrapped>
        ensures { result ≡ option_and_then external_class (slice_get self.now.traits index) }
    {
        self.traits.get(index as usize)?.class()
    }
}
