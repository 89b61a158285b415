ghost use Rattle.std.specs.Prelude.{◌≡◌, ◌<◌, [], length, slice_get, Some, None, true, false, OnOk, IfOk};
ghost use Rattle.amf_graph.specs.Arena.{Arena};
ghost use Rattle.amf_iso.specs.Walking.{met, IsSound, Met, ArePartners};

use crate::equal_texts::EqualTexts;
use amf_graph::{NodeId, Rooted};
use amf_wire::Memory;
use std::alloc::Global;

/// Two graphs that are compared.
#[derive(Clone, Copy)]
pub(crate) struct Graphs<'g> {
    pub left: &'g Rooted,
    pub right: &'g Rooted,
}

/// The pairs of nodes that a walk over two graphs has met. No node has two partners.
pub(crate) struct Walk {
    /// The texts that were found equal.
    pub texts: EqualTexts,
    /// By left node the right node that is its partner.
    partners: Vec<Option<u32>>,
    /// By right node whether it is a partner.
    taken: Vec<bool>,
    /// Each pair once, in the order in which they were met.
    pub pairs: Vec<(NodeId, NodeId)>,
}

impl Drop for Walk {
    /// Lets its parts go. Written out, it is proved once; what is derived is proved at each place where one is let go.
    fn drop(self) {
        let Walk {
            texts: _,
            partners: _,
            taken: _,
            pairs: _,
        } = self;
    }
}

impl Walk {
    /// No pair has been met.
    pub(crate) fn new(alloc: Global, graphs: &Graphs<'_>) -> Result<Walk, Memory>
        ensures sound { IfOk result (λ walk. IsSound graphs.now.left.now.arena graphs.now.right.now.arena walk) }
        ensures none { IfOk result (λ walk. met walk ≡ []) }
    {
        let texts = EqualTexts::new(alloc, graphs.left)?;
        let partners = vec![in alloc; None; graphs.left.node_count() as usize]?;
        let taken = vec![in alloc; false; graphs.right.node_count() as usize]?;
        Ok(Walk {
            texts,
            partners,
            taken,
            pairs: Vec::new(alloc),
        })
    }

    /// Makes partners of two nodes, neither of which has one.
    #[inline(always)]
    fn pair(&mut self, i: NodeId, j: NodeId) -> Result<(), Memory>
        requires left { slice_get self.old.partners.items i.0 ≡ Some None }
        requires right { slice_get self.old.taken.items j.0 ≡ Some false }
        ensures { OnOk result ((a b : Arena) → IsSound a b self.old → Met a b self.old self.new (ArePartners i.0 j.0) true) }
    {
        self.pairs.push((i, j))?;
        self.partners[i.0 as usize] = Some(j.0);
        self.taken[j.0 as usize] = true;
        Ok(())
    }

    /// Whether two nodes are partners. Where neither has a partner, they become so.
    #[inline(always)]
    pub(crate) fn nodes_meet(&mut self, i: NodeId, j: NodeId) -> Result<bool, Memory>
        requires left { i.0 < length self.old.partners.items }
        requires right { j.0 < length self.old.taken.items }
        ensures { IfOk result (λ same. (a b : Arena) → IsSound a b self.old → Met a b self.old self.new (ArePartners i.0 j.0) same) }
    {
        if let Some(partner) = self.partners[i.0 as usize] {
            return Ok(partner == j.0);
        }
        if self.taken[j.0 as usize] {
            return Ok(false);
        }
        self.pair(i, j)?;
        Ok(true)
    }
}
