ghost use Rattle.std.specs.Prelude.{◌≡◌, None, Some};
ghost use Rattle.amf3_spelling.specs.KeptTables.{plain, external, external_class, traits_place};

use amf_graph::{TraitsId, Wrapped};
use std::marker::Model;

/// An entry of a reader's table of traits.
#[derive(Drop)]
pub(crate) struct TraitsEntry {
    traits: TraitsId,
    class: Option<Wrapped>,
}

impl Model for TraitsEntry {
    ghost use Rattle.amf3_spelling.specs.KeptTables.{KeptEntry};

    ghost Value = { KeptEntry };

    ghost use Rattle.amf_tables.specs.TableParts.{kept_entry_of};

    ghost view = { λ e. kept_entry_of e.traits e.class };
}

impl TraitsEntry {
    /// That of traits with members.
    pub(crate) fn plain(traits: TraitsId) -> TraitsEntry
        ensures { result ≡ plain traits.0 }
    {
        TraitsEntry {
            traits,
            class: None,
        }
    }

    /// That of an externalizable class, with its traits in the graph.
    pub(crate) fn external(traits: TraitsId, class: Wrapped) -> TraitsEntry
        ensures { result ≡ external traits.0 class }
    {
        TraitsEntry {
            traits,
            class: Some(class),
        }
    }

    /// Its traits in the graph.
    pub(crate) fn traits(&self) -> TraitsId
        ensures { result.0 ≡ traits_place self.now }
    {
        self.traits
    }

    /// Its class, if that is externalizable.
    pub(crate) fn class(&self) -> Option<Wrapped>
        ensures { result ≡ external_class self.now }
    {
        self.class
    }
}
