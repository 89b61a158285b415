//! What has to stand next in a text.

ghost use Rattle.std.specs.Prelude.{◌≡◌};
ghost use Rattle.amf_text_read.specs.Goals.{key_name};

/// A key that has its place.
#[derive(Clone, Copy, Debug, PartialEq, Eq)]
pub enum Key {
    Fixed,
    Form,
    Headers,
    Messages,
    Must,
    Name,
    Names,
    Pairs,
    Response,
    Root,
    Sealed,
    Target,
    Text,
    Values,
    Version,
    Weak,
}

impl Key {
    pub fn name(self) -> &'static str
        ensures { result.now ≡ key_name self }
    {
        match self {
            Key::Fixed => "$fixed",
            Key::Form => "form",
            Key::Headers => "headers",
            Key::Messages => "messages",
            Key::Must => "must",
            Key::Name => "name",
            Key::Names => "$names",
            Key::Pairs => "pairs",
            Key::Response => "response",
            Key::Root => "root",
            Key::Sealed => "$sealed",
            Key::Target => "target",
            Key::Text => "$text",
            Key::Values => "$values",
            Key::Version => "version",
            Key::Weak => "$weak",
        }
    }
}

/// What has to stand at one place of a text.
#[derive(Clone, Copy, Debug, PartialEq, Eq)]
pub enum Goal {
    /// The whole text; then the key `amf`, and the word behind it.
    Start,
    FormKey,
    FormName,
    /// Just this key; this key, or the table before it; the end of an object and of a list.
    KeyIs(Key),
    TableOr(Key),
    Close,
    EndList,
    /// Rows, and further ones, whose labels are none of those that rows have.
    Rows,
    RowKeys,
    /// Headers and messages, of which so many may still come.
    Headers,
    MoreHeaders(u16),
    Messages,
    MoreMessages(u16),
    /// Any value; one that is a node; and behind the bracket of an object or list.
    Value,
    Node,
    Object,
    NodeObject,
    Plain,
    List,
    Items,
    EntriesList,
    Entries,
    /// Names with values: by keys or by pairs.
    Members,
    Keys,
    Pairs,
    /// Behind a class; behind its dynamic members; its sealed names.
    ClassRest,
    Begun,
    ClassNames,
    MoreNames,
    /// Sealed members: by keys that rise, behind one of them, by names that were told, and by those that are left.
    Sealed,
    Rising,
    RisingPast,
    Those,
    Left,
    /// A flag of this name or the end; behind `$fixed`.
    FlagOrClose(Key),
    VectorKey,
    Text,
    ShortText,
    TextHex,
    ShortHex,
    Hex,
    Pattern,
    PatternList,
    Patterns,
    IntList,
    Ints,
    UintList,
    Uints,
    Flag,
    Truth,
    Label,
    FormWord,
    VersionOfFile,
    VersionOfPacket,
}
