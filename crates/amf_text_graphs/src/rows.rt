//! The rows of a table, by their labels.

ghost use Rattle.std.specs.Prelude.{◌≡◌, IfOk};
ghost use Rattle.amf_text.specs.Linked.{number_of};
ghost use Rattle.amf_text_trees.specs.Pages.{labels_of, number_at};
ghost use Rattle.amf_text_pages.specs.Entries.{entry_of, pairs_of};

use crate::lookup::Lookup;
use amf_text_pages::Entry;
use amf_wire::Memory;
use std::alloc::Global;
use std::hash::RandomState;
use std::marker::Model;

/// A table whose rows are found by their labels.
#[derive(Drop)]
pub(crate) struct Rows {
    labels: Lookup,
    table: Vec<(Vec<u8>, Entry)>,
}

impl Model for Rows {
    ghost use Rattle.std.specs.Prelude.{◌≡◌, map};
    ghost use Rattle.amf_text.specs.Linked.{Numbers};
    ghost use Rattle.amf_text_trees.specs.Pages.{labels_of};
    ghost use Rattle.amf_text_pages.specs.Entries.{pairs_of};

    ghost Value = { Numbers };

    ghost view = { λ r. labels_of (pairs_of r.table) };

    ghost invariant = { λ r. r.labels ≡ map (λ p. p.0.items) r.table.items };
}

/// The number of a node, or 0 where it is none.
fn number_at(entry: &Entry) -> usize
    ensures { result ≡ number_at (entry_of entry.now) }
{
    match entry {
        Entry::Node(number) => *number,
        _ => 0,
    }
}

impl Rows {
    /// The rows of a table.
    pub(crate) fn of(
        alloc: Global,
        keys: Option<RandomState>,
        table: Vec<(Vec<u8>, Entry)>,
    ) -> Result<Rows, Memory>
        ensures { IfOk result (λ rows. rows ≡ labels_of (pairs_of table)) }
    {
        let labels = Lookup::of(alloc, keys, &table)?;
        Ok(Rows { labels, table })
    }

    /// The number of the node of the row that has a label, or 0 where none has it.
    #[tactic(auto, using(crate::proofs::Numbering::number_there, crate::proofs::Numbering::number_nowhere))]
    pub(crate) fn number(&self, label: &[u8]) -> usize
        ensures { result ≡ number_of label.now self.now }
    {
        let place = self.labels.place(label);
        if place < self.table.len() {
            number_at(&self.table[place].1)
        } else {
            0
        }
    }
}
