ghost use Rattle.std.specs.Prelude.{◌≡◌, ◌++◌, length, map, OnOk};
ghost use Rattle.amf_graph.specs.Arena.{Names, value_content};
ghost use Rattle.amf_iso.specs.Contents.{AreValues, pairs_of, ArePairs};
ghost use Rattle.amf_show.specs.ByLister.{pairs_by, zipped};
ghost use Rattle.amf_show.specs.Listing.{shown_pair, shown_pairs};
ghost use Rattle.amf_show.specs.Shown.{joined};
ghost use Rattle.amf_tables.specs.ShownTraits.{AreTextIds};

use crate::lister::Lister;
use crate::numbers::{push_separator, push_word};
use crate::text::push_text;
use amf_graph::{TextId, Value};
use amf_iso::ids_by_name;
use amf_wire::Memory;

impl Lister<'_> {
    /// Appends a name and its value.
    fn push_pair(&self, name: &[u8], value: Value, out: &mut Vec<u8>) -> Result<(), Memory>
        requires { Names self.now.graph.now.arena value }
        ensures { OnOk result (out.new.items ≡ out.old.items ++ shown_pair self.now.numbering.now (name.now, value_content self.now.graph.now.arena value)) }
    {
        push_text(name, out)?;
        push_word(b"=", out)?;
        self.push_value(value, out)
    }

    /// Appends pairs, joined.
    fn push_each(&self, pairs: &[(TextId, Value)], out: &mut Vec<u8>) -> Result<(), Memory>
        requires { ArePairs self.now.graph.now.arena pairs.now }
        ensures { OnOk result (out.new.items ≡ out.old.items ++ joined (map (shown_pair self.now.numbering.now) (pairs_of self.now.graph.now.arena pairs.now))) }
    {
        for (place, pair) in pairs.iter().enumerate() {
            push_separator(place, out)?;
            self.push_pair(self.graph.text(pair.0), pair.1, out)?;
        }
        Ok(())
    }

    /// Appends pairs between braces.
    fn push_pairs(&self, pairs: &[(TextId, Value)], out: &mut Vec<u8>) -> Result<(), Memory>
        requires { ArePairs self.now.graph.now.arena pairs.now }
        ensures { OnOk result (out.new.items ≡ out.old.items ++ shown_pairs self.now.numbering.now (pairs_of self.now.graph.now.arena pairs.now)) }
    {
        push_word(b"{", out)?;
        self.push_each(pairs, out)?;
        push_word(b"}", out)
    }

    /// Appends pairs in by-name order, between braces.
    pub(crate) fn push_by_name(
        &self,
        pairs: &[(TextId, Value)],
        out: &mut Vec<u8>,
    ) -> Result<(), Memory>
        requires { ArePairs self.now.graph.now.arena pairs.now }
        ensures { OnOk result (out.new.items ≡ out.old.items ++ pairs_by self.now pairs.now) }
    {
        let sorted = ids_by_name(self.alloc, pairs, self.graph)?;
        self.push_pairs(&sorted, out)
    }

    /// Appends names and the values at their places, joined.
    fn push_each_sealed(
        &self,
        names: &[TextId],
        values: &[Value],
        out: &mut Vec<u8>,
    ) -> Result<(), Memory>
        requires names { AreTextIds self.now.graph.now.arena names.now }
        requires values { AreValues self.now.graph.now.arena values.now }
        requires each { length values.now ≡ length names.now }
        ensures { OnOk result (out.new.items ≡ out.old.items ++ joined (map (shown_pair self.now.numbering.now) (zipped self.now names.now values.now))) }
    {
        for (place, name) in names.iter().enumerate() {
            push_separator(place, out)?;
            self.push_pair(self.graph.text(*name), values[place], out)?;
        }
        Ok(())
    }

    /// Appends sealed members between braces.
    pub(crate) fn push_sealed(
        &self,
        names: &[TextId],
        values: &[Value],
        out: &mut Vec<u8>,
    ) -> Result<(), Memory>
        requires names { AreTextIds self.now.graph.now.arena names.now }
        requires values { AreValues self.now.graph.now.arena values.now }
        requires each { length values.now ≡ length names.now }
        ensures { OnOk result (out.new.items ≡ out.old.items ++ shown_pairs self.now.numbering.now (zipped self.now names.now values.now)) }
    {
        push_word(b"{", out)?;
        self.push_each_sealed(names, values, out)?;
        push_word(b"}", out)
    }
}
