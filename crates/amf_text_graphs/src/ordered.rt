//! Values in the order of a class.

ghost use Rattle.std.specs.Prelude.{◌≡◌, map, IfOk, OnOk};
ghost use Rattle.std.specs.List.{AllByRecursion};
ghost use Rattle.amf_graph.specs.Arena.{Arena};
ghost use Rattle.amf_graph.specs.Graph.{IsValue};
ghost use Rattle.amf_text_trees.specs.Pages.{value_at};
ghost use Rattle.amf_text_trees.specs.Sheets.{entry_among};
ghost use Rattle.amf_text_pages.specs.Entries.{pair_of};
ghost use Rattle.amf_text_graphs.specs.Lookups.{members_of};
ghost use Rattle.amf_text_graphs.specs.Showing.{IsMore, Adds, Shows, AreShown};

use crate::book::Book;
use crate::lookup::Lookup;
use crate::rows::Rows;
use crate::values::value;
use amf_graph::Value;
use amf_text_pages::Entry;
use amf_wire::Memory;
use std::alloc::Global;
use std::hash::RandomState;

/// Writes the value of a name: that of the first pair that has it.
#[tactic(auto, using(crate::proofs::Members::valued, crate::proofs::Showing::adds_same))]
fn member(
    book: &mut Book,
    rows: &Rows,
    names: &Lookup,
    pairs: &[(Vec<u8>, Entry)],
    name: &[u8],
) -> Result<Value, Memory>
    requires names { names.now ≡ map (λ p. p.0.items) pairs.now }
    requires value { IsValue (value_at rows.now (entry_among name.now (map pair_of pairs.now))) }
    ensures shows { IfOk result (λ v. (a : Arena) → IsMore book.new a → Shows rows.now a v (entry_among name.now (map pair_of pairs.now))) }
    ensures adds { OnOk result (Adds book.old book.new) }
{
    let place = names.place(name);
    if place < pairs.len() {
        value(book, rows, &pairs[place].1)
    } else {
        Ok(Value::Undefined)
    }
}

/// Writes the values of these names, in their order.
pub(crate) fn ordered(
    alloc: Global,
    keys: Option<RandomState>,
    book: &mut Book,
    rows: &Rows,
    names: &[Vec<u8>],
    pairs: &[(Vec<u8>, Entry)],
) -> Result<Vec<Value>, Memory>
    requires { AllByRecursion (λ x. IsValue (value_at rows.now (entry_among x.items (map pair_of pairs.now)))) names.now }
    ensures shows { IfOk result (λ vs. (a : Arena) → IsMore book.new a → AreShown rows.now a vs.items (members_of names.now pairs.now)) }
    ensures adds { OnOk result (Adds book.old book.new) }
{
    let lookup = Lookup::of(alloc, keys, pairs)?;
    let mut values = Vec::new(alloc);
    for name in names {
        let value = member(book, rows, &lookup, pairs, name)?;
        values.push(value)?;
    }
    Ok(values)
}
