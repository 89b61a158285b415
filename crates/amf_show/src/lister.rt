ghost use Rattle.std.specs.Prelude.{◌≡◌, ◌++◌, OnOk};
ghost use Rattle.amf_graph.specs.Renumbered.{place_of};
ghost use Rattle.amf_show.specs.Heads.{AreTexts};
ghost use Rattle.amf_show.specs.Listing.{shown_number};

use crate::class_text::ClassText;
use crate::numbers::{push_uint, push_word};
use amf_graph::{NodeId, Rooted};
use amf_iso::Numbering;
use amf_wire::Memory;
use std::alloc::Global;

/// A graph with the numbers of its nodes, by which its listing names them.
#[derive(Clone, Copy)]
pub(crate) struct Lister<'g> {
    pub(crate) alloc: Global,
    pub(crate) graph: &'g Rooted,
    pub(crate) numbering: &'g Numbering,
    /// The texts of some classes of the graph.
    pub(crate) classes: &'g [ClassText],
    ghost ready: { AreTexts graph.now.arena classes.now },
}

impl Lister<'_> {
    /// The number of a node; where the root does not lead to it, the first number that no node has.
    fn number_of(&self, node: NodeId) -> u32
        ensures { result ≡ place_of self.now.numbering.now node.0 }
    {
        match self.numbering.number_of(node) {
            Some(number) => number,
            None => self.numbering.count(),
        }
    }

    /// Appends the name of a node.
    #[tactic(auto, unfolding(crate::specs::Listing::shown_number))]
    pub(crate) fn push_number(&self, node: NodeId, out: &mut Vec<u8>) -> Result<(), Memory>
        ensures { OnOk result (out.new.items ≡ out.old.items ++ shown_number self.now.numbering.now node.0) }
    {
        push_word(b"#", out)?;
        push_uint(self.number_of(node), out)
    }
}
