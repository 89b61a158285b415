//! Finds names.

ghost use Rattle.std.specs.Prelude.{◌≡◌, ◌++◌, ◌∷◌, [], map, IfOk, OnOk};
ghost use Rattle.amf_text_graphs.specs.Lookups.{place_in, AreFirst};

use amf_graph::Texts;
use amf_text_pages::Entry;
use amf_wire::Memory;
use std::alloc::Global;
use std::hash::RandomState;
use std::marker::Model;

/// Names in their order. Each is found by its hash, where it stands first.
#[derive(Drop)]
pub(crate) struct Lookup {
    names: Texts,
    /// Where each content stands first.
    places: Vec<usize>,
}

impl Model for Lookup {
    ghost use Rattle.std.specs.Prelude.{List, ℕ};
    ghost use Rattle.amf_text_graphs.specs.Lookups.{AreFirst};

    ghost Value = { List (List ℕ) };

    ghost view = { λ l. l.names };

    ghost invariant = { λ l. AreFirst l.names l.places.items };
}

/// Keeps one more name behind the others.
#[tactic(auto, using(crate::proofs::Lookups::first_same, crate::proofs::Lookups::first_more))]
fn add(names: &mut Texts, places: &mut Vec<usize>, name: &[u8]) -> Result<(), Memory>
    requires { AreFirst names.old places.old.items }
    ensures names { OnOk result (names.new ≡ names.old ++ name.now ∷ []) }
    ensures places { OnOk result (AreFirst names.new places.new.items) }
{
    let place = names.len();
    let count = names.content_count();
    names.push(name)?;
    if names.content_count() > count {
        places.push(place)?;
    }
    Ok(())
}

impl Lookup {
    /// The names of these pairs.
    #[tactic(auto, using(crate::proofs::Lookups::none_first))]
    pub(crate) fn of(
        alloc: Global,
        keys: Option<RandomState>,
        pairs: &[(Vec<u8>, Entry)],
    ) -> Result<Lookup, Memory>
        ensures { IfOk result (λ lookup. lookup ≡ map (λ p. p.0.items) pairs.now) }
    {
        let mut names = Texts::new(alloc, keys);
        let mut places = Vec::new(alloc);
        for pair in pairs {
            add(&mut names, &mut places, &pair.0)?;
        }
        Ok(Lookup { names, places })
    }

    /// Where a name stands first, or how many names there are where it does not.
    #[tactic(auto, using(crate::proofs::Lookups::sought))]
    pub(crate) fn place(&self, name: &[u8]) -> usize
        ensures { result ≡ place_in name.now self.now }
    {
        match self.names.find(name) {
            Some(number) => self.places[number as usize],
            None => self.names.len(),
        }
    }
}
