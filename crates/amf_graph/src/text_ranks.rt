//! The order of long names.

ghost use Rattle.std.specs.Prelude.{◌≡◌, ◌<◌, ◌≤◌, length, slice_get, Some, IfOk, IfSome};
ghost use Rattle.std.specs.List.{AllByRecursion};
ghost use Rattle.std.specs.List.Sorted.{IsSortedBy};
ghost use Rattle.amf_graph.specs.Arena.{IsTextId};
ghost use Rattle.amf_graph.specs.Bounds.{count_end};
ghost use Rattle.amf_graph.specs.TextRanks.{text_before, AreRanks};

use crate::TextId;
use crate::limits::MAX_COMPARED;
use crate::store::Store;
use amf_wire::Memory;
use std::alloc::Global;

/// The ranks of long names: two of them stand to one another by their bytes as their ranks. All names of pairs and of sealed
/// members that have more than [`MAX_COMPARED`] bytes have ranks, or none has.
#[derive(Drop)]
pub(crate) struct TextRanks {
    /// By text its rank, where it has one. Empty where no text has one.
    by_text: Vec<Option<u32>>,
}

/// The long texts among those that are marked.
fn long_texts(alloc: Global, store: &Store, marks: &[bool]) -> Result<Vec<TextId>, Memory>
    requires all { length marks.now ≡ length store.now.texts }
    requires few { length store.now.texts < count_end }
    ensures there { IfOk result (λ long. AllByRecursion (λ x. IsTextId store.now x.0) long.items) }
    ensures few { IfOk result (λ long. length long.items ≤ length store.now.texts) }
{
    let mut long = Vec::new(alloc);
    for (place, mark) in marks.iter().enumerate() {
        let text = TextId(place as u32);
        if *mark && store.text(text).len() > MAX_COMPARED {
            long.push(text)?;
        }
    }
    Ok(long)
}

/// By text its rank, of texts that are sorted by their bytes.
fn ranks_of(alloc: Global, store: &Store, sorted: &[TextId]) -> Result<Vec<Option<u32>>, Memory>
    requires there { AllByRecursion (λ x. IsTextId store.now x.0) sorted.now }
    requires sorted { IsSortedBy (text_before store.now) sorted.now }
    requires few { length sorted.now < count_end }
    ensures { IfOk result (λ ranks. AreRanks store.now.texts ranks.items) }
{
    let mut ranks = vec![in alloc; None; store.text_count()]?;
    let mut last: &[u8] = &[];
    let mut rank = 0;
    for text in sorted {
        let bytes = store.text(*text);
        if last.cmp(bytes).is_lt() {
            rank += 1;
        }
        ranks[text.0 as usize] = Some(rank);
        last = bytes;
    }
    Ok(ranks)
}

impl TextRanks {
    /// No text has a rank.
    fn none(alloc: Global) -> TextRanks
        ensures { length result.by_text.items ≡ 0 }
    {
        TextRanks {
            by_text: Vec::new(alloc),
        }
    }

    /// The ranks of the long names.
    fn made(alloc: Global, store: &Store) -> Result<TextRanks, Memory>
        requires { length store.now.texts < count_end }
        ensures { IfOk result (λ ranks. AreRanks store.now.texts ranks.by_text.items) }
    {
        if !store.has_long_text() {
            return Ok(TextRanks::none(alloc));
        }
        let marks = store.marked_names(alloc)?;
        let mut long = long_texts(alloc, store, &marks)?;
        if long.is_empty() {
            return Ok(TextRanks::none(alloc));
        }
        long.sort_by(|x, y| store.compare_texts(*x, *y))?;
        let by_text = ranks_of(alloc, store, &long)?;
        Ok(TextRanks { by_text })
    }

    /// The ranks of the long names. Where there is no memory for them, no text has one.
    pub(crate) fn of(alloc: Global, store: &Store) -> TextRanks
        requires { length store.now.texts < count_end }
        ensures { AreRanks store.now.texts result.by_text.items }
    {
        match TextRanks::made(alloc, store) {
            Ok(ranks) => ranks,
            Err(_) => TextRanks::none(alloc),
        }
    }

    /// The same ranks once more.
    pub(crate) fn copy(&self, alloc: Global) -> Result<TextRanks, Memory>
        ensures { IfOk result (λ copy. copy.by_text.items ≡ self.now.by_text.items) }
    {
        let by_text = self.by_text.to_vec(alloc)?;
        Ok(TextRanks { by_text })
    }

    /// The rank of a text, if it has one.
    pub(crate) fn rank(&self, text: TextId) -> Option<u32>
        ensures { IfSome result (λ rank. slice_get self.now.by_text.items text.0 ≡ Some (Some rank)) }
    {
        match self.by_text.get(text.0 as usize) {
            Some(rank) => *rank,
            None => None,
        }
    }
}
