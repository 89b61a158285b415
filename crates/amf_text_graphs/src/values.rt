//! Writes values into a book.

ghost use Rattle.std.specs.Prelude.{◌≡◌, map, IfOk, OnOk};
ghost use Rattle.std.specs.List.{AllByRecursion};
ghost use Rattle.amf_graph.specs.Arena.{Arena};
ghost use Rattle.amf_graph.specs.Graph.{IsValue};
ghost use Rattle.amf_wire.specs.Text.{IsText};
ghost use Rattle.amf_text_trees.specs.Pages.{value_at};
ghost use Rattle.amf_text_pages.specs.Entries.{entry_of, pair_of};
ghost use Rattle.amf_text_graphs.specs.Showing.{IsMore, Adds, Shows, AreShown, ArePairsShown};

use crate::book::Book;
use crate::rows::Rows;
use amf_graph::{NodeId, TextId, Value};
use amf_text_pages::Entry;
use amf_wire::Memory;
use std::alloc::Global;

/// The node with a number. It gives up where there is no room for it.
fn node(number: usize) -> Result<NodeId, Memory>
    ensures { IfOk result (λ node. node.0 ≡ number) }
{
    match u32::try_from(number) {
        Ok(number) => Ok(NodeId(number)),
        Err(_) => Err(Memory),
    }
}

/// Writes a value.
#[tactic(auto, using(crate::proofs::Showing::text_shown, crate::proofs::Showing::adds_text, crate::proofs::Showing::adds_same))]
pub(crate) fn value(book: &mut Book, rows: &Rows, entry: &Entry) -> Result<Value, Memory>
    requires { IsValue (value_at rows.now (entry_of entry.now)) }
    ensures shows { IfOk result (λ v. (a : Arena) → IsMore book.new a → Shows rows.now a v (entry_of entry.now)) }
    ensures adds { OnOk result (Adds book.old book.new) }
{
    match entry {
        Entry::Undefined => Ok(Value::Undefined),
        Entry::Null => Ok(Value::Null),
        Entry::Bool(flag) => Ok(Value::Bool(*flag)),
        Entry::Integer(number) => Ok(Value::Integer(*number)),
        Entry::Double(pattern) => Ok(Value::Double(*pattern)),
        Entry::Text(bytes) => Ok(Value::Text(book.text(bytes)?)),
        Entry::Label(label) => Ok(Value::Node(node(rows.number(label))?)),
        Entry::Node(number) => Ok(Value::Node(node(*number)?)),
    }
}

/// Writes values, in their order.
pub(crate) fn values(
    alloc: Global,
    book: &mut Book,
    rows: &Rows,
    entries: &[Entry],
) -> Result<Vec<Value>, Memory>
    requires { AllByRecursion (λ e. IsValue (value_at rows.now (entry_of e))) entries.now }
    ensures shows { IfOk result (λ vs. (a : Arena) → IsMore book.new a → AreShown rows.now a vs.items (map entry_of entries.now)) }
    ensures adds { OnOk result (Adds book.old book.new) }
{
    let mut values = Vec::new(alloc);
    for entry in entries {
        let value = value(book, rows, entry)?;
        values.push(value)?;
    }
    Ok(values)
}

/// Writes names with their values, in their order.
pub(crate) fn pairs(
    alloc: Global,
    book: &mut Book,
    rows: &Rows,
    pairs: &[(Vec<u8>, Entry)],
) -> Result<Vec<(TextId, Value)>, Memory>
    requires names { AllByRecursion (λ p. IsText p.0.items) pairs.now }
    requires values { AllByRecursion (λ p. IsValue (value_at rows.now (entry_of p.1))) pairs.now }
    ensures shows { IfOk result (λ ps. (a : Arena) → IsMore book.new a → ArePairsShown rows.now a ps.items (map pair_of pairs.now)) }
    ensures adds { OnOk result (Adds book.old book.new) }
{
    let mut all = Vec::new(alloc);
    for pair in pairs {
        let name = book.text(&pair.0)?;
        let value = value(book, rows, &pair.1)?;
        all.push((name, value))?;
    }
    Ok(all)
}
