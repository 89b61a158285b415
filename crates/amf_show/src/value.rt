ghost use Rattle.std.specs.Prelude.{◌≡◌, ◌++◌, map, OnOk};
ghost use Rattle.amf_graph.specs.Arena.{Names, value_content};
ghost use Rattle.amf_iso.specs.Contents.{values_of, AreValues};
ghost use Rattle.amf_show.specs.Listing.{shown_value, shown_values};
ghost use Rattle.amf_show.specs.Shown.{joined};

use crate::lister::Lister;
use crate::numbers::{push_double, push_int, push_separator, push_word};
use crate::text::push_text;
use amf_graph::Value;
use amf_wire::Memory;

impl Lister<'_> {
    /// Appends a value: a node by its number, and any other by what it is.
    pub(crate) fn push_value(&self, value: Value, out: &mut Vec<u8>) -> Result<(), Memory>
        requires { Names self.now.graph.now.arena value }
        ensures { OnOk result (out.new.items ≡ out.old.items ++ shown_value self.now.numbering.now (value_content self.now.graph.now.arena value)) }
    {
        match value {
            Value::Undefined => push_word(b"undefined", out),
            Value::Null => push_word(b"null", out),
            Value::Bool(true) => push_word(b"true", out),
            Value::Bool(false) => push_word(b"false", out),
            Value::Integer(integer) => push_int(integer, out),
            Value::Double(double) => push_double(double, out),
            Value::Text(text) => push_text(self.graph.text(text), out),
            Value::Node(node) => self.push_number(node, out),
        }
    }

    /// Appends values, joined.
    fn push_items(&self, values: &[Value], out: &mut Vec<u8>) -> Result<(), Memory>
        requires { AreValues self.now.graph.now.arena values.now }
        ensures { OnOk result (out.new.items ≡ out.old.items ++ joined (map (shown_value self.now.numbering.now) (values_of self.now.graph.now.arena values.now))) }
    {
        for (place, value) in values.iter().enumerate() {
            push_separator(place, out)?;
            self.push_value(*value, out)?;
        }
        Ok(())
    }

    /// Appends values between square brackets.
    pub(crate) fn push_values(&self, values: &[Value], out: &mut Vec<u8>) -> Result<(), Memory>
        requires { AreValues self.now.graph.now.arena values.now }
        ensures { OnOk result (out.new.items ≡ out.old.items ++ shown_values self.now.numbering.now (values_of self.now.graph.now.arena values.now)) }
    {
        push_word(b"[", out)?;
        self.push_items(values, out)?;
        push_word(b"]", out)
    }
}
