ghost use Rattle.std.specs.Prelude.{◌≡◌, ◌<◌, ◌++◌, [], codes, cond, length, OnOk};
ghost use Rattle.std.specs.List.{flat_map};
ghost use Rattle.amf_graph.specs.Arena.{Names, IsTextId, traits_at};
ghost use Rattle.amf_graph.specs.Graph.{class_name};
ghost use Rattle.amf_iso.specs.Contents.{AreValues, ArePairs};
ghost use Rattle.amf_show.specs.ByLister.{value_by, values_by, pairs_by, object_by, vector_by};
ghost use Rattle.amf_show.specs.Shown.{hex_byte, shown_text, shown_double};

use crate::lister::Lister;
use crate::numbers::{push_double, push_word};
use crate::text::{push_hex, push_text};
use crate::vectors::fixed_word;
use amf_graph::{TextId, TraitsId, Value, Wrapped};
use amf_wire::{Memory, Pattern};

/// Appends a word, and a text behind it.
pub(crate) fn push_worded(word: &[u8], text: &[u8], out: &mut Vec<u8>) -> Result<(), Memory>
    ensures { OnOk result (out.new.items ≡ out.old.items ++ (word.now ++ shown_text text.now)) }
{
    push_word(word, out)?;
    push_text(text, out)
}

/// Appends a date: the milliseconds since 1970 as a double.
pub(crate) fn push_date(milliseconds: Pattern, out: &mut Vec<u8>) -> Result<(), Memory>
    ensures { OnOk result (out.new.items ≡ out.old.items ++ (codes "date " ++ shown_double milliseconds.0)) }
{
    push_word(b"date ", out)?;
    push_double(milliseconds, out)
}

/// Appends a byte array.
pub(crate) fn push_byte_array(bytes: &[u8], out: &mut Vec<u8>) -> Result<(), Memory>
    ensures { OnOk result (out.new.items ≡ out.old.items ++ (codes "bytes x" ++ flat_map hex_byte bytes.now)) }
{
    push_word(b"bytes x", out)?;
    push_hex(bytes, out)
}

impl Lister<'_> {
    /// Appends an array: its items, and its names in by-name order.
    pub(crate) fn push_array(
        &self,
        items: &[Value],
        names: &[(TextId, Value)],
        out: &mut Vec<u8>,
    ) -> Result<(), Memory>
        requires items { AreValues self.now.graph.now.arena items.now }
        requires names { ArePairs self.now.graph.now.arena names.now }
        ensures { OnOk result (out.new.items ≡ out.old.items ++ (codes "array " ++ values_by self.now items.now ++ codes " " ++ pairs_by self.now names.now)) }
    {
        push_word(b"array ", out)?;
        self.push_values(items, out)?;
        push_word(b" ", out)?;
        self.push_by_name(names, out)
    }

    /// Appends an object whose class has no text ready.
    pub(crate) fn push_unknown(
        &self,
        traits: TraitsId,
        sealed: &[Value],
        members: &[(TextId, Value)],
        out: &mut Vec<u8>,
    ) -> Result<(), Memory>
        requires traits { traits.0 < length self.now.graph.now.arena.traits }
        requires sealed { AreValues self.now.graph.now.arena sealed.now }
        requires each { length sealed.now ≡ length (traits_at self.now.graph.now.arena traits.0).sealed }
        requires members { ArePairs self.now.graph.now.arena members.now }
        ensures { OnOk result (out.new.items ≡ out.old.items ++ object_by self.now traits.0 members.now sealed.now) }
    {
        self.graph.is_finished();
        let class = self.graph.traits(traits);
        push_worded(b"object ", self.graph.text(class.class), out)?;
        push_word(b" sealed ", out)?;
        self.push_sealed(class.sealed, sealed, out)?;
        self.push_members(class.dynamic, members, out)
    }

    /// Appends the dynamic members of an object whose class takes them.
    pub(crate) fn push_members(
        &self,
        dynamic: bool,
        members: &[(TextId, Value)],
        out: &mut Vec<u8>,
    ) -> Result<(), Memory>
        requires { ArePairs self.now.graph.now.arena members.now }
        ensures { OnOk result (out.new.items ≡ out.old.items ++ cond dynamic (codes " dynamic " ++ pairs_by self.now members.now) []) }
    {
        if !dynamic {
            return Ok(());
        }
        push_word(b" dynamic ", out)?;
        self.push_by_name(members, out)
    }

    /// Appends a wrapper: its class, and the value that it holds.
    pub(crate) fn push_wrapper(
        &self,
        class: Wrapped,
        value: Value,
        out: &mut Vec<u8>,
    ) -> Result<(), Memory>
        requires { Names self.now.graph.now.arena value }
        ensures { OnOk result (out.new.items ≡ out.old.items ++ (codes "wrapper " ++ shown_text (class_name class) ++ codes " " ++ value_by self.now value)) }
    {
        push_worded(b"wrapper ", class.class_name(), out)?;
        push_word(b" ", out)?;
        self.push_value(value, out)
    }

    /// Appends a vector of values.
    pub(crate) fn push_vector(
        &self,
        fixed: bool,
        of: TextId,
        items: &[Value],
        out: &mut Vec<u8>,
    ) -> Result<(), Memory>
        requires of { IsTextId self.now.graph.now.arena of.0 }
        requires items { AreValues self.now.graph.now.arena items.now }
        ensures { OnOk result (out.new.items ≡ out.old.items ++ vector_by self.now fixed of items.now) }
    {
        push_worded(b"values ", self.graph.text(of), out)?;
        push_word(b" ", out)?;
        push_word(fixed_word(fixed), out)?;
        push_word(b" ", out)?;
        self.push_values(items, out)
    }
}
