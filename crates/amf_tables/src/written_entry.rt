ghost use Rattle.std.specs.Prelude.{◌≡◌, ◌↔◌, false, IfOk, IsTrue};
ghost use Rattle.amf_tables.specs.ContentHash.{written_hash};
ghost use Rattle.amf_tables.specs.KnownTexts.{AreNotedOf};
ghost use Rattle.amf_tables.specs.ShownTraits.{AreTraitsOf, shown_entry};
ghost use Rattle.amf_tables.specs.WrittenParts.{copied, wrapped, entry_of, shown_traits, IsNoCopy, IsFoundFor};

use crate::content_hash::{hash_of_class, hash_of_codes};
use crate::known_texts::KnownTexts;
use crate::text_codes::{code_of, codes_of};
use crate::text_table::TextTable;
use crate::written_texts::{are_named, are_texts, copies_of, is_text};
use amf_graph::{Rooted, TraitsView, Wrapped};
use amf_wire::{Memory, Name};
use std::alloc::Global;
use std::hash::{DefaultHasher, Hasher};
use std::marker::Model;

/// What an entry of a writer's table of traits tells of a class.
#[derive(Drop)]
pub(crate) enum Content {
    /// A class with members, by the codes of its texts.
    Coded {
        class: u32,
        dynamic: bool,
        sealed: Vec<u32>,
    },
    /// A class with members one of whose texts had no code, by copies of its texts.
    Copied {
        class: Name,
        dynamic: bool,
        sealed: Vec<Name>,
    },
    /// An externalizable class.
    External(Wrapped),
}

/// An entry of a writer's table of traits. What it stands for depends on the table of texts.
#[derive(Drop)]
pub(crate) struct WrittenEntry {
    content: Content,
}

impl Model for WrittenEntry {
    ghost use Rattle.amf_tables.specs.WrittenParts.{Written};

    ghost Value = { Written };

    ghost use Rattle.amf_tables.specs.WrittenContent.{written_of};

    ghost view = { λ e. written_of e.content };
}

impl WrittenEntry {
    /// That of traits with members, by the codes of their texts: `None` exactly where one of these has none.
    pub(crate) fn coded(
        alloc: Global,
        traits: &TraitsView<'_>,
        graph: &Rooted,
        texts: &TextTable,
        known: &KnownTexts,
    ) -> Result<Option<WrittenEntry>, Memory>
        requires shown { AreTraitsOf graph.now.arena traits.now }
        requires known { AreNotedOf graph.now.arena texts.now known.now }
        ensures { IfOk result (IsFoundFor texts.now (shown_entry graph.now.arena traits.now)) }
    {
        let Some(class) = code_of(traits.class, graph, texts, known) else {
            return Ok(None);
        };
        let Some(sealed) = codes_of(alloc, traits.sealed, graph, texts, known)? else {
            return Ok(None);
        };
        let content = Content::Coded {
            class,
            dynamic: traits.dynamic,
            sealed,
        };
        Ok(Some(WrittenEntry { content }))
    }

    /// That of traits with members, by copies of their texts.
    pub(crate) fn copied(
        alloc: Global,
        traits: &TraitsView<'_>,
        graph: &Rooted,
    ) -> Result<WrittenEntry, Memory>
        requires { AreTraitsOf graph.now.arena traits.now }
        ensures { IfOk result (λ entry. entry ≡ copied (shown_traits graph.now.arena traits.now)) }
    {
        let content = Content::Copied {
            class: Name::of_bytes(alloc, graph.text(traits.class))?,
            dynamic: traits.dynamic,
            sealed: copies_of(alloc, traits.sealed, graph)?,
        };
        Ok(WrittenEntry { content })
    }

    /// That of an externalizable class.
    pub(crate) fn external(class: Wrapped) -> WrittenEntry
        ensures { result ≡ wrapped class }
    {
        WrittenEntry {
            content: Content::External(class),
        }
    }

    /// Its hash, by which copies are not looked up.
    pub(crate) fn hash(&self, start: DefaultHasher) -> u64
        ensures { result ≡ written_hash start self.now }
    {
        match &self.content {
            Content::Coded {
                class,
                dynamic,
                sealed,
            } => hash_of_codes(start, *class, *dynamic, sealed),
            Content::Copied { .. } => start.finish(),
            Content::External(class) => hash_of_class(start, *class),
        }
    }

    /// Whether it has copies of its texts.
    pub(crate) fn is_copy(&self) -> bool
        ensures { result ≡ false → IsNoCopy self.now }
    {
        matches!(&self.content, Content::Copied { .. })
    }

    /// Whether it is this entry, which has no copies.
    pub(crate) fn is_same(&self, other: &WrittenEntry) -> bool
        requires { IsNoCopy other.now }
        ensures { IsTrue result ↔ (self.now ≡ other.now) }
    {
        match (&self.content, &other.content) {
            (
                Content::Coded {
                    class,
                    dynamic,
                    sealed,
                },
                Content::Coded {
                    class: other_class,
                    dynamic: other_dynamic,
                    sealed: other_sealed,
                },
            ) => class == other_class && dynamic == other_dynamic && sealed == other_sealed,
            (Content::External(class), Content::External(other)) => class == other,
            _ => false,
        }
    }

    /// Whether it stands for these traits. It goes through the bytes of all texts.
    pub(crate) fn is_plain(
        &self,
        traits: &TraitsView<'_>,
        graph: &Rooted,
        texts: &TextTable,
    ) -> bool
        requires { AreTraitsOf graph.now.arena traits.now }
        ensures { IsTrue result ↔ (entry_of texts.now self.now ≡ shown_entry graph.now.arena traits.now) }
    {
        match &self.content {
            Content::Coded {
                class,
                dynamic,
                sealed,
            } => {
                texts.is_named(*class, graph.text(traits.class))
                    && *dynamic == traits.dynamic
                    && are_named(sealed, traits.sealed, graph, texts)
            }
            Content::Copied {
                class,
                dynamic,
                sealed,
            } => {
                is_text(class, graph.text(traits.class))
                    && *dynamic == traits.dynamic
                    && are_texts(sealed, traits.sealed, graph)
            }
            Content::External(_) => false,
        }
    }
}
