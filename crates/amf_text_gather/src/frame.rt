//! What is open in a text, innermost first, and what has come of each.

ghost use Rattle.std.specs.Prelude.{◌≡◌, ◌++◌, ◌∷◌, [], IfOk};
ghost use Rattle.amf_text_trees.specs.Frames.{take_value, take_values, take_members, take_text, take_bytes, take_pattern, take_patterns};
ghost use Rattle.amf_text_trees.specs.Frames.{take_int, take_ints, take_uint, take_uints, take_packet_version, take_words, take_flag, take_form, take_version};
ghost use Rattle.amf_text_trees.specs.Frames.{take_header, take_headers, take_message, take_messages, take_document, wrapped};
ghost use Rattle.amf_text_pages.specs.Entries.{entry_of, entries_of, pairs_of, texts_of};
ghost use Rattle.amf_text_pages.specs.Written.{form_named, version_named};
ghost use Rattle.amf_text_pages.specs.Pages.{header_of, message_of, document_of};
ghost use Rattle.amf_text_gather.specs.Frames.{frame_of};
ghost use Rattle.amf_text_read.specs.TagNames.{tag_named};
ghost use Rattle.std.specs.Prelude.{map};

use amf_graph::Wrapped;
use amf_text_pages::{
    Class, Document, Entry, FileVersion, Header, Message, Node, PacketForm, Sheet, with_entry,
    with_pair,
};
use amf_text_read::Tag;
use amf_wire::{Memory, Pattern};
use std::alloc::Global;

/// What is open. A number is that of the node that has begun with it.
#[derive(Drop)]
pub(crate) enum Frame {
    /// Around the text; and the text at its end.
    Bottom,
    Ended(Document),
    /// An array that is a value, and a list that belongs to something else.
    Items(usize, Vec<Entry>),
    List(Vec<Entry>),
    /// An object by its names, and members that belong to something else; with the name whose value is to come.
    Plain(usize, Vec<(Vec<u8>, Entry)>, Option<Vec<u8>>),
    Members(Vec<(Vec<u8>, Entry)>, Option<Vec<u8>>),
    /// An object of which the first key has come, which is a node or not.
    Tagged(usize, Tag),
    Scalar(Tag),
    /// One that only waits for its end: it stands for this value, node or text.
    Whole(Entry),
    Done(usize, Node),
    Quoted(Vec<u8>),
    /// The items of an array, before its names.
    Listed(usize, Vec<Entry>),
    /// A class, before its dynamic members, and before its sealed members in this order.
    Class(usize, Class),
    Dynamic(usize, Vec<u8>),
    Ordered(usize, Class, Vec<Vec<u8>>),
    /// Behind `$fixed`; a vector of this tag; one of values, before these.
    Fixed(usize, bool),
    Vector(usize, Tag, bool),
    Typed(usize, bool, Vec<u8>),
    /// Before the last flag.
    Doubles(usize, Vec<u64>, bool),
    Dictionary(usize, Vec<Entry>, bool),
    /// Lists of scalars.
    Patterns(Vec<u64>),
    Ints(Vec<i32>),
    Uints(Vec<u32>),
    Words(Vec<Vec<u8>>),
    /// A document and its parts; a header and a message have sheets of their own, and keep the one around them.
    Document(Document),
    Header(Header, Sheet),
    Headers(Vec<Header>),
    Message(Message, Sheet),
    Messages(Vec<Message>),
}

/// What a value does to an object of which the first key has come.
fn wrapped(node: usize, tag: Tag, entry: Entry) -> Frame
    ensures { frame_of result ≡ wrapped node (tag_named tag) (entry_of entry) }
{
    let wrapped = match tag {
        Tag::Collection => Wrapped::ArrayCollection,
        Tag::List => Wrapped::ArrayList,
        Tag::Proxy => Wrapped::ObjectProxy,
        _ => return Frame::Whole(entry),
    };
    Frame::Done(node, Node::Wrapper(wrapped, entry))
}

/// Texts with one more.
fn with_text(texts: Vec<Vec<u8>>, text: Vec<u8>) -> Result<Vec<Vec<u8>>, Memory>
    ensures { IfOk result (λ all. texts_of all ≡ texts_of texts ++ text.items ∷ []) }
{
    let mut all = texts;
    all.push(text)?;
    Ok(all)
}

/// Doubles with one more.
fn with_pattern(patterns: Vec<u64>, pattern: u64) -> Result<Vec<u64>, Memory>
    ensures { IfOk result (λ all. all.items ≡ patterns.items ++ pattern ∷ []) }
{
    let mut all = patterns;
    all.push(pattern)?;
    Ok(all)
}

/// Integers with one more.
fn with_int(ints: Vec<i32>, int: i32) -> Result<Vec<i32>, Memory>
    ensures { IfOk result (λ all. all.items ≡ ints.items ++ int ∷ []) }
{
    let mut all = ints;
    all.push(int)?;
    Ok(all)
}

/// Unsigned integers with one more.
fn with_uint(uints: Vec<u32>, uint: u32) -> Result<Vec<u32>, Memory>
    ensures { IfOk result (λ all. all.items ≡ uints.items ++ uint ∷ []) }
{
    let mut all = uints;
    all.push(uint)?;
    Ok(all)
}

/// Headers with one more.
fn with_header(headers: Vec<Header>, header: Header) -> Result<Vec<Header>, Memory>
    ensures { IfOk result (λ all. map header_of all.items ≡ map header_of headers.items ++ header_of header ∷ []) }
{
    let mut all = headers;
    all.push(header)?;
    Ok(all)
}

/// Messages with one more.
fn with_message(messages: Vec<Message>, message: Message) -> Result<Vec<Message>, Memory>
    ensures { IfOk result (λ all. map message_of all.items ≡ map message_of messages.items ++ message_of message ∷ []) }
{
    let mut all = messages;
    all.push(message)?;
    Ok(all)
}

impl Frame {
    /// Takes a value.
    pub(crate) fn take_value(self, entry: Entry) -> Result<Frame, Memory>
        ensures { IfOk result (λ f. frame_of f ≡ take_value (entry_of entry) (frame_of self)) }
    {
        Ok(match self {
            Frame::Items(node, entries) => Frame::Items(node, with_entry(entries, entry)?),
            Frame::List(entries) => Frame::List(with_entry(entries, entry)?),
            Frame::Plain(node, pairs, name) => match name {
                Some(name) => Frame::Plain(node, with_pair(pairs, name, entry)?, None),
                None => Frame::Plain(node, pairs, None),
            },
            Frame::Members(pairs, name) => match name {
                Some(name) => Frame::Members(with_pair(pairs, name, entry)?, None),
                None => Frame::Members(pairs, None),
            },
            Frame::Tagged(node, tag) => wrapped(node, tag, entry),
            Frame::Scalar(_) => Frame::Whole(entry),
            Frame::Document(document) => Frame::Document(document.with_root(entry)),
            Frame::Header(header, around) => Frame::Header(header.with_root(entry), around),
            Frame::Message(message, around) => Frame::Message(message.with_root(entry), around),
            other => other,
        })
    }

    /// Takes a list of values.
    pub(crate) fn take_values(self, entries: Vec<Entry>) -> Frame
        ensures { frame_of result ≡ take_values (entries_of entries) (frame_of self) }
    {
        match self {
            Frame::Tagged(node, Tag::Array) => Frame::Listed(node, entries),
            Frame::Tagged(node, Tag::Dictionary) => Frame::Dictionary(node, entries, false),
            Frame::Typed(node, fixed, name) => {
                Frame::Done(node, Node::Values(fixed, name, entries))
            }
            other => other,
        }
    }

    /// Takes members.
    pub(crate) fn take_members(self, pairs: Vec<(Vec<u8>, Entry)>) -> Frame
        ensures { frame_of result ≡ take_members (pairs_of pairs) (frame_of self) }
    {
        match self {
            Frame::Listed(node, entries) => Frame::Done(node, Node::Array(pairs, entries)),
            Frame::Dynamic(node, name) => Frame::Class(
                node,
                Class {
                    name,
                    dynamic: true,
                    members: pairs,
                },
            ),
            Frame::Class(node, class) => Frame::Done(node, Node::Sealed(class, pairs)),
            Frame::Ordered(node, class, names) => {
                Frame::Done(node, Node::Ordered(class, names, pairs))
            }
            Frame::Document(document) => Frame::Document(document.with_table(pairs)),
            Frame::Header(header, around) => Frame::Header(header.with_table(pairs), around),
            Frame::Message(message, around) => Frame::Message(message.with_table(pairs), around),
            other => other,
        }
    }

    /// Takes a text. Of a message the response comes before the target.
    pub(crate) fn take_text(self, alloc: Global, text: Vec<u8>) -> Result<Frame, Memory>
        ensures { IfOk result (λ f. frame_of f ≡ take_text text.items (frame_of self)) }
    {
        Ok(match self {
            Frame::Plain(node, pairs, _) => Frame::Plain(node, pairs, Some(text)),
            Frame::Members(pairs, _) => Frame::Members(pairs, Some(text)),
            Frame::Quoted(_) => Frame::Quoted(text),
            Frame::Words(texts) => Frame::Words(with_text(texts, text)?),
            Frame::Scalar(_) => Frame::Whole(Entry::Text(text)),
            Frame::Tagged(node, tag) => tagged_text(alloc, node, tag, text),
            Frame::Vector(node, _, fixed) => Frame::Typed(node, fixed, text),
            Frame::Document(document) => Frame::Document(document.with_name(text)),
            Frame::Header(header, around) => Frame::Header(header.with_name(text), around),
            Frame::Message(message, around) => Frame::Message(message.with_text(text), around),
            other => other,
        })
    }

    /// Takes bytes.
    pub(crate) fn take_bytes(self, bytes: Vec<u8>) -> Frame
        ensures { frame_of result ≡ take_bytes bytes.items (frame_of self) }
    {
        match self {
            Frame::Tagged(node, _) => Frame::Done(node, Node::Bytes(bytes)),
            other => other,
        }
    }

    /// Takes a double by its bits.
    pub(crate) fn take_pattern(self, pattern: u64) -> Result<Frame, Memory>
        ensures { IfOk result (λ f. frame_of f ≡ take_pattern pattern (frame_of self)) }
    {
        Ok(match self {
            Frame::Scalar(_) => Frame::Whole(Entry::Double(Pattern(pattern))),
            Frame::Tagged(node, _) => Frame::Done(node, Node::Date(pattern)),
            Frame::Patterns(patterns) => Frame::Patterns(with_pattern(patterns, pattern)?),
            other => other,
        })
    }

    /// Takes the doubles of a vector.
    pub(crate) fn take_patterns(self, patterns: Vec<u64>) -> Frame
        ensures { frame_of result ≡ take_patterns patterns.items (frame_of self) }
    {
        match self {
            Frame::Tagged(node, _) => Frame::Doubles(node, patterns, false),
            other => other,
        }
    }

    /// Takes an integer of a vector.
    pub(crate) fn take_int(self, int: i32) -> Result<Frame, Memory>
        ensures { IfOk result (λ f. frame_of f ≡ take_int int (frame_of self)) }
    {
        Ok(match self {
            Frame::Ints(ints) => Frame::Ints(with_int(ints, int)?),
            other => other,
        })
    }

    /// Takes the integers of a vector.
    pub(crate) fn take_ints(self, ints: Vec<i32>) -> Frame
        ensures { frame_of result ≡ take_ints ints.items (frame_of self) }
    {
        match self {
            Frame::Vector(node, _, fixed) => Frame::Done(node, Node::Ints(fixed, ints)),
            other => other,
        }
    }

    /// Takes an unsigned integer of a vector.
    pub(crate) fn take_uint(self, uint: u32) -> Result<Frame, Memory>
        ensures { IfOk result (λ f. frame_of f ≡ take_uint uint (frame_of self)) }
    {
        Ok(match self {
            Frame::Uints(uints) => Frame::Uints(with_uint(uints, uint)?),
            other => other,
        })
    }

    /// Takes the unsigned integers of a vector.
    pub(crate) fn take_uints(self, uints: Vec<u32>) -> Frame
        ensures { frame_of result ≡ take_uints uints.items (frame_of self) }
    {
        match self {
            Frame::Vector(node, _, fixed) => Frame::Done(node, Node::Uints(fixed, uints)),
            other => other,
        }
    }

    /// Takes the names of a class.
    pub(crate) fn take_words(self, words: Vec<Vec<u8>>) -> Frame
        ensures { frame_of result ≡ take_words (texts_of words) (frame_of self) }
    {
        match self {
            Frame::Class(node, class) => Frame::Ordered(node, class, words),
            other => other,
        }
    }

    /// Takes a flag.
    pub(crate) fn take_flag(self, flag: bool) -> Frame
        ensures { frame_of result ≡ take_flag flag (frame_of self) }
    {
        match self {
            Frame::Scalar(_) => Frame::Whole(Entry::Undefined),
            Frame::Tagged(node, _) => Frame::Fixed(node, flag),
            Frame::Doubles(node, numbers, _) => Frame::Doubles(node, numbers, flag),
            Frame::Dictionary(node, entries, _) => Frame::Dictionary(node, entries, flag),
            Frame::Header(header, around) => Frame::Header(header.with_must(flag), around),
            other => other,
        }
    }

    /// Takes the form of a header or a message.
    pub(crate) fn take_form(self, form: PacketForm) -> Frame
        ensures { frame_of result ≡ take_form (form_named form) (frame_of self) }
    {
        match self {
            Frame::Header(header, around) => Frame::Header(header.with_form(form), around),
            Frame::Message(message, around) => Frame::Message(message.with_form(form), around),
            other => other,
        }
    }

    /// Takes the version of a file.
    pub(crate) fn take_version(self, version: FileVersion) -> Frame
        ensures { frame_of result ≡ take_version (version_named version) (frame_of self) }
    {
        match self {
            Frame::Document(Document::File(name, _, page)) => {
                Frame::Document(Document::File(name, version, page))
            }
            other => other,
        }
    }

    /// Takes the version of a packet.
    pub(crate) fn take_packet_version(self, version: u16) -> Frame
        ensures { frame_of result ≡ take_packet_version version (frame_of self) }
    {
        match self {
            Frame::Document(Document::Packet(_, headers, messages)) => {
                Frame::Document(Document::Packet(version, headers, messages))
            }
            other => other,
        }
    }

    /// Takes a header.
    pub(crate) fn take_header(self, header: Header) -> Result<Frame, Memory>
        ensures { IfOk result (λ f. frame_of f ≡ take_header (header_of header) (frame_of self)) }
    {
        Ok(match self {
            Frame::Headers(headers) => Frame::Headers(with_header(headers, header)?),
            other => other,
        })
    }

    /// Takes the headers of a packet.
    pub(crate) fn take_headers(self, headers: Vec<Header>) -> Frame
        ensures { frame_of result ≡ take_headers (map header_of headers.items) (frame_of self) }
    {
        match self {
            Frame::Document(Document::Packet(version, _, messages)) => {
                Frame::Document(Document::Packet(version, headers, messages))
            }
            other => other,
        }
    }

    /// Takes a message.
    pub(crate) fn take_message(self, message: Message) -> Result<Frame, Memory>
        ensures { IfOk result (λ f. frame_of f ≡ take_message (message_of message) (frame_of self)) }
    {
        Ok(match self {
            Frame::Messages(messages) => Frame::Messages(with_message(messages, message)?),
            other => other,
        })
    }

    /// Takes the messages of a packet.
    pub(crate) fn take_messages(self, messages: Vec<Message>) -> Frame
        ensures { frame_of result ≡ take_messages (map message_of messages.items) (frame_of self) }
    {
        match self {
            Frame::Document(Document::Packet(version, headers, _)) => {
                Frame::Document(Document::Packet(version, headers, messages))
            }
            other => other,
        }
    }

    /// Takes the whole text.
    pub(crate) fn take_document(self, document: Document) -> Frame
        ensures { frame_of result ≡ take_document (document_of document) (frame_of self) }
    {
        match self {
            Frame::Bottom => Frame::Ended(document),
            other => other,
        }
    }
}

/// What a text does to an object of which the first key has come.
fn tagged_text(alloc: Global, node: usize, tag: Tag, text: Vec<u8>) -> Frame
    ensures { frame_of result ≡ take_text text.items (frame_of (Frame.Tagged node tag)) }
{
    match tag {
        Tag::Class => Frame::Class(
            node,
            Class {
                name: text,
                dynamic: false,
                members: Vec::new(alloc),
            },
        ),
        Tag::Xmldoc => Frame::Done(node, Node::XmlDocument(text)),
        Tag::Xml => Frame::Done(node, Node::Xml(text)),
        _ => Frame::Tagged(node, tag),
    }
}
