//! The lists of a node that is open.

ghost use Rattle.std.specs.Prelude.{◌≡◌, [], ◌∷◌, ◌++◌, is_ok, if◌then◌else◌, IfOk, OnOk, OnErr};
ghost use Rattle.amf_graph.specs.Slots.{no_lists, more_values, more_names, more_entries};

use crate::{TextId, Value};
use amf_wire::Memory;
use std::alloc::Global;
use std::marker::Model;
use std::mem;

#[derive(Drop)]
struct Lists {
    values: Vec<Value>,
    names: Vec<(TextId, Value)>,
    entries: Vec<(Value, Value)>,
}

/// Values, pairs by name, and the entries of a dictionary. The lists are made with the first part, so that a node without parts, or
/// one whose first part is still read, takes little room.
#[derive(Drop)]
pub(crate) struct PartLists {
    lists: Option<Box<Lists>>,
}

impl Model for PartLists {
    ghost use Rattle.amf_graph.specs.Slots.{KeptLists, lists_of};

    ghost Value = { KeptLists };

    ghost view = { λ p. lists_of p.lists };
}

impl Lists {
    fn new(alloc: Global) -> Lists
        ensures values { result.values.items ≡ [] }
        ensures names { result.names.items ≡ [] }
        ensures entries { result.entries.items ≡ [] }
    {
        Lists {
            values: Vec::new(alloc),
            names: Vec::new(alloc),
            entries: Vec::new(alloc),
        }
    }
}

/// Adds a part to a list that has no room left. After an end nothing has changed.
#[inline(never)]
fn push_grown<T: Copy>(parts: &mut Vec<T>, part: T) -> Result<(), Memory>
    ensures { parts.new.items ≡ (if is_ok result then parts.old.items ++ part ∷ [] else parts.old.items) }
{
    parts.push(part)?;
    Ok(())
}

/// Adds a part to a list. Most lists have room for it: these need no call. After an end nothing has changed.
#[inline(always)]
fn push_to<T: Copy>(parts: &mut Vec<T>, part: T) -> Result<(), Memory>
    ensures { parts.new.items ≡ (if is_ok result then parts.old.items ++ part ∷ [] else parts.old.items) }
{
    if parts.len() >= parts.capacity() {
        return push_grown(parts, part);
    }
    parts.push_reserved(part);
    Ok(())
}

/// Lists with one value.
#[inline(never)]
fn first_value(alloc: Global, value: Value) -> Result<PartLists, Memory>
    ensures { IfOk result (λ lists. lists ≡ more_values value no_lists) }
{
    let mut lists = Lists::new(alloc);
    lists.values.push(value)?;
    let lists = Some(Box::new(alloc, lists)?);
    Ok(PartLists { lists })
}

/// Lists with one pair by name.
#[inline(never)]
fn first_name(alloc: Global, name: TextId, value: Value) -> Result<PartLists, Memory>
    ensures { IfOk result (λ lists. lists ≡ more_names (name, value) no_lists) }
{
    let mut lists = Lists::new(alloc);
    lists.names.push((name, value))?;
    let lists = Some(Box::new(alloc, lists)?);
    Ok(PartLists { lists })
}

/// Lists with one entry.
#[inline(never)]
fn first_entry(alloc: Global, key: Value, value: Value) -> Result<PartLists, Memory>
    ensures { IfOk result (λ lists. lists ≡ more_entries (key, value) no_lists) }
{
    let mut lists = Lists::new(alloc);
    lists.entries.push((key, value))?;
    let lists = Some(Box::new(alloc, lists)?);
    Ok(PartLists { lists })
}

impl PartLists {
    pub(crate) fn new() -> PartLists
        ensures { result ≡ no_lists }
    {
        PartLists { lists: None }
    }

    /// Lets the parts go. The lists are used again.
    pub(crate) fn clear(&mut self)
        ensures { self.new ≡ no_lists }
    {
        if let Some(lists) = &mut self.lists {
            lists.values.clear();
            lists.names.clear();
            lists.entries.clear();
        }
    }

    /// Whether the lists are still to be made.
    pub(crate) fn are_unmade(&self) -> bool {
        self.lists.is_none()
    }

    /// Gives the lists, without the parts.
    pub(crate) fn take(&mut self) -> PartLists
        ensures { result ≡ no_lists }
    {
        let mut lists = mem::replace(self, PartLists::new());
        lists.clear();
        lists
    }

    /// Uses lists without parts, where its own are still to be made.
    pub(crate) fn take_over(&mut self, spare: PartLists)
        requires { spare ≡ no_lists }
        ensures { self.new ≡ self.old }
    {
        if self.lists.is_none() {
            *self = spare;
        }
    }

    pub(crate) fn values(&self) -> &[Value]
        ensures { result.now ≡ self.now.values }
    {
        match &self.lists {
            Some(lists) => &lists.values,
            None => &[],
        }
    }

    pub(crate) fn names(&self) -> &[(TextId, Value)]
        ensures { result.now ≡ self.now.names }
    {
        match &self.lists {
            Some(lists) => &lists.names,
            None => &[],
        }
    }

    pub(crate) fn entries(&self) -> &[(Value, Value)]
        ensures { result.now ≡ self.now.entries }
    {
        match &self.lists {
            Some(lists) => &lists.entries,
            None => &[],
        }
    }

    /// Adds a value. After an end nothing has changed.
    #[inline(always)]
    pub(crate) fn push_value(&mut self, alloc: Global, value: Value) -> Result<(), Memory>
        ensures ok { OnOk result (self.new ≡ more_values value self.old) }
        ensures err { OnErr result (self.new ≡ self.old) }
    {
        if let Some(lists) = &mut self.lists {
            push_to(&mut lists.values, value)?;
        } else {
            *self = first_value(alloc, value)?;
        }
        Ok(())
    }

    /// Adds a pair by name. After an end nothing has changed.
    #[inline(always)]
    pub(crate) fn push_name(
        &mut self,
        alloc: Global,
        name: TextId,
        value: Value,
    ) -> Result<(), Memory>
        ensures ok { OnOk result (self.new ≡ more_names (name, value) self.old) }
        ensures err { OnErr result (self.new ≡ self.old) }
    {
        if let Some(lists) = &mut self.lists {
            push_to(&mut lists.names, (name, value))?;
        } else {
            *self = first_name(alloc, name, value)?;
        }
        Ok(())
    }

    /// Adds an entry. After an end nothing has changed.
    #[inline(always)]
    pub(crate) fn push_entry(
        &mut self,
        alloc: Global,
        key: Value,
        value: Value,
    ) -> Result<(), Memory>
        ensures ok { OnOk result (self.new ≡ more_entries (key, value) self.old) }
        ensures err { OnErr result (self.new ≡ self.old) }
    {
        if let Some(lists) = &mut self.lists {
            push_to(&mut lists.entries, (key, value))?;
        } else {
            *self = first_entry(alloc, key, value)?;
        }
        Ok(())
    }
}
