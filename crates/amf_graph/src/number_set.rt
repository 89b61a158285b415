ghost use Rattle.std.specs.Prelude.{◌≡◌, ◌<◌, ◌≤◌, [], length, slice_get, Some, IfOk, OnOk, OnErr};
ghost use Rattle.std.specs.List.{AllByRecursion};
ghost use Rattle.amf_graph.specs.Order.{IsDistinct};
ghost use Rattle.amf_graph.specs.Gather.{placed, with_all, with_entry};
ghost use Rattle.amf_graph.specs.Renumbered.{place_of};
ghost use Rattle.amf_graph.specs.Bounds.{count_end};

use amf_wire::Memory;
use std::alloc::Global;
use std::marker::Model;

/// Numbers below a count, each once, in the order in which they came.
pub(crate) struct NumberSet {
    items: Vec<u32>,
    /// The place of each number that came.
    places: Vec<Option<u32>>,
}

impl Drop for NumberSet {
    /// Lets its parts go. Written out, it is proved once; what is derived is proved at each place where one is let go.
    fn drop(self) {
        let NumberSet {
            items: _,
            places: _,
        } = self;
    }
}

impl Model for NumberSet {
    ghost use Rattle.std.specs.Prelude.{length};
    ghost use Rattle.amf_graph.specs.Gather.{Placed, ArePlaces};

    ghost Value = { Placed };

    ghost view = { λ p. record { count = length p.places.items; items = p.items.items } };

    ghost invariant = { λ p. ArePlaces p.items.items p.places.items };
}

impl NumberSet {
    /// None yet. It gives up where there is no memory.
    pub(crate) fn new(alloc: Global, count: u32) -> Result<NumberSet, Memory>
        requires { count < count_end }
        ensures { IfOk result (λ p. p ≡ placed count []) }
    {
        Ok(NumberSet {
            items: Vec::new(alloc),
            places: vec![in alloc; None; count as usize]?,
        })
    }

    /// The numbers of a list, all below a count. It gives up where there is no memory.
    pub(crate) fn of(alloc: Global, count: u32, items: &[u32]) -> Result<NumberSet, Memory>
        requires few { count < count_end }
        requires below { AllByRecursion (λ i. i < count) items.now }
        ensures { IfOk result (λ p. p ≡ placed count (with_all items.now [])) }
    {
        let mut numbers = NumberSet::new(alloc, count)?;
        numbers.add_all(items)?;
        Ok(numbers)
    }

    /// Adds a number, unless it is there. After an end nothing has changed.
    pub(crate) fn add(&mut self, item: u32) -> Result<(), Memory>
        requires { item < self.old.count }
        ensures ok { OnOk result (self.new ≡ placed self.old.count (with_entry item self.old.items)) }
        ensures err { OnErr result (self.new ≡ self.old) }
    {
        if self.places[item as usize].is_none() {
            let place = self.items.len() as u32;
            self.items.push(item)?;
            self.places[item as usize] = Some(place);
        }
        Ok(())
    }

    /// How many came.
    pub(crate) fn len(&self) -> usize
        ensures count { result ≡ length self.now.items }
        ensures few { length self.now.items ≤ self.now.count }
        ensures below { AllByRecursion (λ i. i < self.now.count) self.now.items }
        ensures small { result < count_end }
        ensures once { IsDistinct self.now.items }
    {
        self.items.len()
    }

    /// The number at a place.
    pub(crate) fn at(&self, place: usize) -> u32
        requires { place < length self.now.items }
        ensures here { slice_get self.now.items place ≡ Some result }
        ensures below { result < self.now.count }
    {
        self.items[place]
    }

    /// Adds the numbers that are not there.
    pub(crate) fn add_all(&mut self, items: &[u32]) -> Result<(), Memory>
        requires { AllByRecursion (λ i. i < self.old.count) items.now }
        ensures { OnOk result (self.new ≡ placed self.old.count (with_all items.now self.old.items)) }
    {
        for item in items {
            self.add(*item)?;
        }
        Ok(())
    }

    /// The place of a number, or how many came where it did not.
    pub(crate) fn place(&self, item: u32) -> u32
        requires { item < self.now.count }
        ensures place { result ≡ place_of self.now.items item }
        ensures few { result < count_end }
    {
        match self.places[item as usize] {
            Some(place) => place,
            None => self.items.len() as u32,
        }
    }
}
