ghost use Rattle.std.specs.Prelude.{◌≡◌, Some, None, true, false, IfSome, IfNone};
ghost use Rattle.amf0_spelling.specs.Markers0.{marker0_at};
ghost use Rattle.amf0_spelling.specs.Refusals0.{is_no_marker0};

/// The marker of a value (AMF 0 specification, 2.1 and 3.1).
#[derive(Clone, Copy, Debug, PartialEq, Eq)]
pub enum Marker0 {
    Double,
    Boolean,
    Text,
    Object,
    Null,
    Undefined,
    Reference,
    /// An array with names alone.
    Names,
    /// An array with items alone.
    Strict,
    Date,
    LongText,
    Unsupported,
    Document,
    Typed,
    /// A value of AMF 3 follows.
    Switch,
}

impl Marker0 {
    /// The marker that a byte is, or `None` exactly where no value has it: above 0x11, and those of movie clips, of the end of
    /// pairs and of record sets (AMF 0 specification, 2.1).
    pub fn from_byte(byte: u8) -> Option<Marker0>
        ensures known { IfSome result (λ marker. (Some marker ≡ marker0_at byte) × (is_no_marker0 false byte ≡ false)) }
        ensures none { IfNone result (is_no_marker0 false byte ≡ true) }
    {
        Some(match byte {
            0x00 => Marker0::Double,
            0x01 => Marker0::Boolean,
            0x02 => Marker0::Text,
            0x03 => Marker0::Object,
            0x05 => Marker0::Null,
            0x06 => Marker0::Undefined,
            0x07 => Marker0::Reference,
            0x08 => Marker0::Names,
            0x0A => Marker0::Strict,
            0x0B => Marker0::Date,
            0x0C => Marker0::LongText,
            0x0D => Marker0::Unsupported,
            0x0F => Marker0::Document,
            0x10 => Marker0::Typed,
            0x11 => Marker0::Switch,
            _ => return None,
        })
    }
}
