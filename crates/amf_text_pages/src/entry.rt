//! Values as they stand in a text.

ghost use Rattle.std.specs.Prelude.{◌≡◌, ◌++◌, ◌∷◌, [], IfOk};
ghost use Rattle.amf_text_pages.specs.Entries.{entry_of, entries_of, pairs_of};

use amf_wire::{Memory, Pattern};

/// A value: one that stands for itself, the label of a row, or a node by its number.
#[derive(Drop)]
pub enum Entry {
    /// Undefined.
    Undefined,
    /// Null.
    Null,
    /// True or false.
    Bool(bool),
    /// An integer, from -2^28 to 2^28-1 (AMF 3, 3.6).
    Integer(i32),
    /// A double, by its bits.
    Double(Pattern),
    /// A text.
    Text(Vec<u8>),
    /// A label that is called: it stands for the node of the row that has it, in the table of its page.
    Label(Vec<u8>),
    /// A node of its page, by its number.
    Node(usize),
}

/// Values with one more. It gives up where there is no memory.
pub fn with_entry(entries: Vec<Entry>, entry: Entry) -> Result<Vec<Entry>, Memory>
    ensures { IfOk result (λ all. entries_of all ≡ entries_of entries ++ entry_of entry ∷ []) }
{
    let mut all = entries;
    all.push(entry)?;
    Ok(all)
}

/// Names with values, and one pair more. It gives up where there is no memory.
pub fn with_pair(
    pairs: Vec<(Vec<u8>, Entry)>,
    name: Vec<u8>,
    entry: Entry,
) -> Result<Vec<(Vec<u8>, Entry)>, Memory>
    ensures { IfOk result (λ all. pairs_of all ≡ pairs_of pairs ++ (name.items, entry_of entry) ∷ []) }
{
    let mut all = pairs;
    all.push((name, entry))?;
    Ok(all)
}
