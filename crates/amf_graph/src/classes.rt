//! Classes, with their sealed names one behind the other.

ghost use Rattle.std.specs.Prelude.{◌≡◌, ◌+◌, ◌<◌, ◌≤◌, [], ◌∷◌, ◌++◌, length, map, take, get_or, slice_range, true, IfOk, OnOk, OnErr};
ghost use Rattle.amf_graph.specs.Arena.{no_traits};
ghost use Rattle.amf_graph.specs.Building.{stored_traits};
ghost use Rattle.amf_graph.specs.ClassHeads.{shown_classes};
ghost use Rattle.amf_graph.specs.StandIns.{opened_traits};
ghost use Rattle.amf_graph.specs.TextPool.{pieces, AreEnds};
ghost use Rattle.amf_graph.specs.Views.{ShowsTraits};

use crate::row::{Span, span_from};
use crate::text_pool::start_of;
use crate::{TextId, TraitsView};
use amf_wire::Memory;
use std::alloc::Global;
use std::marker::Model;

/// Traits: for each its class and whether its objects may have further members, and where its sealed names end.
pub(crate) struct Classes {
    heads: Vec<(TextId, bool)>,
    ends: Vec<u32>,
    sealed: Vec<TextId>,
}

impl Drop for Classes {
    /// Lets its parts go. Written out, it is proved once; what is derived is proved at each place where one is let go.
    fn drop(self) {
        let Classes {
            heads: _,
            ends: _,
            sealed: _,
        } = self;
    }
}

impl Model for Classes {
    ghost use Rattle.std.specs.Prelude.{List, ◌≡◌, length};
    ghost use Rattle.amf_graph.specs.Arena.{StoredTraits};
    ghost use Rattle.amf_graph.specs.ClassHeads.{shown_classes};
    ghost use Rattle.amf_graph.specs.TextPool.{pieces, AreEnds};

    ghost Value = { List StoredTraits };

    ghost view = { λ c. shown_classes c.heads.items (pieces c.sealed.items 0 c.ends.items) };

    ghost invariant = { λ c. (length c.heads.items ≡ length c.ends.items) × AreEnds 0 (length c.sealed.items) c.ends.items };
}

/// The names from one place up to another.
fn part(names: &[TextId], start: usize, end: usize) -> &[TextId]
    requires start { start ≤ end }
    requires end { end ≤ length names.now }
    ensures { result.now ≡ slice_range names.now start end }
{
    &names[start..end]
}

/// The sealed names of the traits at a place.
fn names_at<'a>(sealed: &'a [TextId], ends: &[u32], place: usize) -> &'a [TextId]
    requires ends { AreEnds 0 (length sealed.now) ends.now }
    requires there { place < length ends.now }
    ensures { result.now ≡ get_or (pieces sealed.now 0 ends.now) place [] }
{
    let start = start_of(ends, place);
    part(sealed, start, ends[place] as usize)
}

/// The traits at a place.
fn class_at<'a>(
    heads: &[(TextId, bool)],
    sealed: &'a [TextId],
    ends: &[u32],
    place: usize,
) -> TraitsView<'a>
    requires ends { AreEnds 0 (length sealed.now) ends.now }
    requires heads { length heads.now ≡ length ends.now }
    requires there { place < length heads.now }
    ensures { ShowsTraits (get_or (shown_classes heads.now (pieces sealed.now 0 ends.now)) place no_traits) result }
{
    let (class, dynamic) = heads[place];
    let sealed = names_at(sealed, ends, place);
    TraitsView {
        class,
        dynamic,
        sealed,
    }
}

impl Classes {
    pub(crate) fn new(alloc: Global) -> Classes
        ensures { result ≡ [] }
    {
        Classes {
            heads: Vec::new(alloc),
            ends: Vec::new(alloc),
            sealed: Vec::new(alloc),
        }
    }

    pub(crate) fn len(&self) -> usize
        ensures { result ≡ length self.now }
    {
        self.heads.len()
    }

    /// The traits at a place.
    pub(crate) fn get(&self, place: usize) -> TraitsView<'_>
        requires { place < length self.now }
        ensures { ShowsTraits (get_or self.now place no_traits) result }
    {
        class_at(&self.heads, &self.sealed, &self.ends, place)
    }

    /// Keeps traits behind the others. After an end nothing has changed.
    pub(crate) fn push(
        &mut self,
        class: TextId,
        dynamic: bool,
        sealed: &[TextId],
    ) -> Result<(), Memory>
        ensures ok { OnOk result (self.new ≡ self.old ++ stored_traits class dynamic sealed.now ∷ []) }
        ensures err { OnErr result (self.new ≡ self.old) }
    {
        let Span { end, .. } = span_from(self.sealed.len(), sealed.len())?;
        self.heads.reserve(1)?;
        self.ends.reserve(1)?;
        self.sealed.extend_from_slice(sealed)?;
        self.ends.push(end)?;
        self.heads.push((class, dynamic))?;
        Ok(())
    }

    /// Keeps so many traits alone.
    pub(crate) fn truncate(&mut self, count: usize)
        requires { count ≤ length self.old }
        ensures { self.new ≡ take count self.old }
    {
        let end = start_of(&self.ends, count);
        self.heads.truncate(count);
        self.ends.truncate(count);
        self.sealed.truncate(end);
    }

    /// Keeps other traits behind these. After an end some of them are there.
    fn push_all(&mut self, more: &Classes) -> Result<(), Memory>
        ensures ok { OnOk result (self.new ≡ self.old ++ more.now) }
        ensures front { take (length self.old) self.new ≡ self.old }
    {
        for place in 0..more.len() {
            let traits = more.get(place);
            self.push(traits.class, traits.dynamic, traits.sealed)?;
        }
        Ok(())
    }

    /// Keeps other traits behind these. After an end nothing has changed.
    pub(crate) fn append(&mut self, more: &Classes) -> Result<(), Memory>
        ensures ok { OnOk result (self.new ≡ self.old ++ more.now) }
        ensures err { OnErr result (self.new ≡ self.old) }
    {
        let count = self.len();
        match self.push_all(more) {
            Ok(()) => Ok(()),
            Err(end) => {
                self.truncate(count);
                Err(end)
            }
        }
    }

    /// The same traits once more.
    pub(crate) fn copy(&self, alloc: Global) -> Result<Classes, Memory>
        ensures { IfOk result (λ copy. copy ≡ self.now) }
    {
        Ok(Classes {
            heads: self.heads.to_vec(alloc)?,
            ends: self.ends.to_vec(alloc)?,
            sealed: self.sealed.to_vec(alloc)?,
        })
    }

    /// The classes, each of which takes further members and has no sealed ones.
    pub(crate) fn opened(&self, alloc: Global) -> Result<Classes, Memory>
        ensures { IfOk result (λ classes. classes ≡ map opened_traits self.now) }
    {
        let mut opened = Classes::new(alloc);
        for place in 0..self.len() {
            opened.push(self.get(place).class, true, &[])?;
        }
        Ok(opened)
    }
}
