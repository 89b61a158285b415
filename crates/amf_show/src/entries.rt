ghost use Rattle.std.specs.Prelude.{◌≡◌, ◌++◌, codes, OnOk};
ghost use Rattle.amf_graph.specs.Arena.{Names};
ghost use Rattle.amf_graph.specs.Views.{flat};
ghost use Rattle.amf_iso.specs.Contents.{values_of, AreValues};
ghost use Rattle.amf_show.specs.ByLister.{value_by, entries_by};
ghost use Rattle.amf_show.specs.Listing.{entries_in};
ghost use Rattle.amf_show.specs.Shown.{joined, shown_weak};

use crate::lister::Lister;
use crate::numbers::{push_separator, push_word};
use amf_graph::Value;
use amf_wire::Memory;

/// Whether the keys of a dictionary are held weakly.
fn weak_word(weak: bool) -> &'static [u8]
    ensures { result.now ≡ shown_weak weak }
{
    if weak { b"weak" } else { b"strong" }
}

impl Lister<'_> {
    /// Appends a key and its value.
    fn push_entry(&self, key: Value, value: Value, out: &mut Vec<u8>) -> Result<(), Memory>
        requires key { Names self.now.graph.now.arena key }
        requires value { Names self.now.graph.now.arena value }
        ensures { OnOk result (out.new.items ≡ out.old.items ++ (value_by self.now key ++ codes "=" ++ value_by self.now value)) }
    {
        self.push_value(key, out)?;
        push_word(b"=", out)?;
        self.push_value(value, out)
    }

    /// Appends keys and values, joined.
    fn push_entries(&self, entries: &[(Value, Value)], out: &mut Vec<u8>) -> Result<(), Memory>
        requires { AreValues self.now.graph.now.arena (flat entries.now) }
        ensures { OnOk result (out.new.items ≡ out.old.items ++ joined (entries_in self.now.numbering.now (values_of self.now.graph.now.arena (flat entries.now)))) }
    {
        for (place, entry) in entries.iter().enumerate() {
            push_separator(place, out)?;
            self.push_entry(entry.0, entry.1, out)?;
        }
        Ok(())
    }

    /// Appends keys and values between braces.
    fn push_braced(&self, entries: &[(Value, Value)], out: &mut Vec<u8>) -> Result<(), Memory>
        requires { AreValues self.now.graph.now.arena (flat entries.now) }
        ensures { OnOk result (out.new.items ≡ out.old.items ++ entries_by self.now entries.now) }
    {
        push_word(b"{", out)?;
        self.push_entries(entries, out)?;
        push_word(b"}", out)
    }

    /// Appends a dictionary.
    pub(crate) fn push_dictionary(
        &self,
        weak: bool,
        entries: &[(Value, Value)],
        out: &mut Vec<u8>,
    ) -> Result<(), Memory>
        requires { AreValues self.now.graph.now.arena (flat entries.now) }
        ensures { OnOk result (out.new.items ≡ out.old.items ++ (codes "dict " ++ shown_weak weak ++ codes " " ++ entries_by self.now entries.now)) }
    {
        push_word(b"dict ", out)?;
        push_word(weak_word(weak), out)?;
        push_word(b" ", out)?;
        self.push_braced(entries, out)
    }
}
