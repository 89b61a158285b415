//! Writes names and classes into a book.

ghost use Rattle.std.specs.Prelude.{◌≡◌, ◌<◌, ℕ, List, length, map, IfOk, OnOk};
ghost use Rattle.std.specs.List.{AllByRecursion};
ghost use Rattle.amf_graph.specs.Arena.{Arena, IsTextId, traits_at};
ghost use Rattle.amf_wire.specs.Text.{IsText};
ghost use Rattle.amf_text_graphs.specs.Showing.{IsMore, Adds, AreTextsShown, ShowsClass};

use crate::book::Book;
use amf_graph::{TextId, TraitsId};
use amf_wire::Memory;
use std::alloc::Global;

/// Writes names, in their order.
#[tactic(auto, using(crate::proofs::Showing::adds_same))]
pub(crate) fn names(
    alloc: Global,
    book: &mut Book,
    names: &[Vec<u8>],
) -> Result<Vec<TextId>, Memory>
    requires { AllByRecursion (λ x. IsText x.items) names.now }
    ensures shows { IfOk result (λ ts. (a : Arena) → IsMore book.new a → AreTextsShown a ts.items (map (λ x. x.items) names.now)) }
    ensures adds { OnOk result (Adds book.old book.new) }
{
    let mut all = Vec::new(alloc);
    for name in names {
        let text = book.text(name)?;
        all.push(text)?;
    }
    Ok(all)
}

/// Writes a class. Its sealed names are there already.
#[tactic(auto, using(crate::proofs::Classes::traits_in, crate::proofs::Classes::adds_class))]
pub(crate) fn class(
    book: &mut Book,
    name: &[u8],
    dynamic: bool,
    sealed: &[TextId],
) -> Result<TraitsId, Memory>
    requires name { IsText name.now }
    requires sealed { AllByRecursion (IsTextId book.old) (map (λ t. t.0) sealed.now) }
    ensures shows { IfOk result (λ t. (a : Arena) → IsMore book.new a → ShowsClass a t.0 name.now dynamic sealed.now) }
    ensures adds { OnOk result (Adds book.old book.new) }
{
    let class = book.text(name)?;
    book.traits(class, dynamic, sealed)
}
