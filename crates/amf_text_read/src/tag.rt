//! The words by which an object says what it stands for.

ghost use Rattle.std.specs.Prelude.{◌≡◌};
ghost use Rattle.amf_text.specs.Tags.{tag_of as tag_spec, begins_tag as begins_spec};
ghost use Rattle.amf_text.specs.Asks.{is_name};
ghost use Rattle.amf_text_read.specs.TagNames.{tag_named};

/// A word that begins with a dollar sign, or another key.
#[derive(Clone, Copy, Debug, PartialEq, Eq)]
pub enum Tag {
    Collection,
    List,
    Proxy,
    Array,
    Bytes,
    Class,
    Date,
    Dictionary,
    Double,
    Doubles,
    Dynamic,
    Fixed,
    Ints,
    Names,
    Node,
    Sealed,
    Text,
    Type,
    Uints,
    Undefined,
    Values,
    Weak,
    Xml,
    Xmldoc,
    /// Another word that begins so.
    Unknown,
    /// A key that does not begin so.
    Name,
}

/// Whether a key begins with a dollar sign.
fn begins_tag(key: &str) -> bool
    ensures { result ≡ begins_spec key.now }
{
    match key.as_bytes() {
        [first, ..] => *first == b'$',
        [] => false,
    }
}

/// The word that a key is.
pub fn tag_of(key: &str) -> Tag
    ensures { tag_named result ≡ tag_spec key.now }
{
    match key {
        "$ArrayCollection" => Tag::Collection,
        "$ArrayList" => Tag::List,
        "$ObjectProxy" => Tag::Proxy,
        "$array" => Tag::Array,
        "$bytes" => Tag::Bytes,
        "$class" => Tag::Class,
        "$date" => Tag::Date,
        "$dictionary" => Tag::Dictionary,
        "$double" => Tag::Double,
        "$doubles" => Tag::Doubles,
        "$dynamic" => Tag::Dynamic,
        "$fixed" => Tag::Fixed,
        "$ints" => Tag::Ints,
        "$names" => Tag::Names,
        "$node" => Tag::Node,
        "$sealed" => Tag::Sealed,
        "$text" => Tag::Text,
        "$type" => Tag::Type,
        "$uints" => Tag::Uints,
        "$undefined" => Tag::Undefined,
        "$values" => Tag::Values,
        "$weak" => Tag::Weak,
        "$xml" => Tag::Xml,
        "$xmldoc" => Tag::Xmldoc,
        _ if begins_tag(key) => Tag::Unknown,
        _ => Tag::Name,
    }
}

/// Whether a key does not begin with a dollar sign.
pub(crate) fn is_name(key: &str) -> bool
    ensures { result ≡ is_name (tag_spec key.now) }
{
    matches!(tag_of(key), Tag::Name)
}
