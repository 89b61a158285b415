ghost use Rattle.std.specs.Prelude.{◌≡◌, ◌<◌, ◌↔◌, cond, length, set, slice_get, Some, IsTrue, IfOk};
ghost use Rattle.amf_graph.specs.Arena.{Arena, text_at};
ghost use Rattle.amf_graph.specs.TextNumbers.{contents_of};
ghost use Rattle.amf_iso.specs.Joined.{AreJoined};

use amf_graph::{Rooted, TextId, number_facts};
use amf_wire::Memory;
use std::alloc::Global;
use std::marker::Model;

/// Which texts of two graphs were found equal, by the numbers of their contents. A content has one equal content at most in
/// the other graph, so the bytes of a text are compared only where its content has not met that one yet.
#[derive(Drop)]
pub(crate) struct EqualTexts {
    /// By the number of a left content that of the equal right one, where it was found.
    partners: Vec<Option<u32>>,
}

impl Model for EqualTexts {
    ghost use Rattle.std.specs.Prelude.{ℕ, List, Option};

    ghost Value = { List (Option ℕ) };

    ghost view = { λ t. t.partners.items };
}

impl EqualTexts {
    /// Nothing is known of the texts of two graphs.
    pub(crate) fn new(alloc: Global, left: &Rooted) -> Result<EqualTexts, Memory>
        ensures { (b : Arena) → IfOk result (λ texts. AreJoined left.now.arena b texts) }
    {
        let partners = vec![in alloc; None; left.content_count()]?;
        Ok(EqualTexts { partners })
    }

    /// Whether two contents with these numbers are equal. Where they are, the one is kept as the partner of the other.
    fn meet(&mut self, left: u32, right: u32, x: &[u8], y: &[u8]) -> bool
        requires { left < length self.old }
        ensures kept { self.new ≡ cond result (set self.old left (Some right)) self.old }
        ensures equal { IsTrue result ↔ x.now ≡ y.now }
    {
        if x != y {
            return false;
        }
        self.partners[left as usize] = Some(right);
        true
    }

    /// Whether a text of the left graph and one of the right are equal.
    pub(crate) fn are_equal(&mut self, x: TextId, y: TextId, left: &Rooted, right: &Rooted) -> bool
        requires left { x.0 < length left.now.arena.texts }
        requires right { y.0 < length right.now.arena.texts }
        requires known { AreJoined left.now.arena right.now.arena self.old }
        ensures known { AreJoined left.now.arena right.now.arena self.new }
        ensures equal { IsTrue result ↔ text_at left.now.arena x.0 ≡ text_at right.now.arena y.0 }
    {
        number_facts();
        let (m, n) = (left.text_number(x), right.text_number(y));
        match self.partners[m as usize] {
            Some(partner) => partner == n,
            None => self.meet(m, n, left.text(x), right.text(y)),
        }
    }
}
