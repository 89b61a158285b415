//! What tokens do to what has been gathered.

ghost use Rattle.std.specs.Prelude.{◌≡◌, [], OnOk, IfOk, option_map};
ghost use Rattle.json.specs.Reads.{token_of};
ghost use Rattle.amf_text.specs.Scalars.{read_number};
ghost use Rattle.amf_text_read.specs.TagNames.{tag_named};
ghost use Rattle.amf_text_trees.specs.Frames.{plain as plain_frame};
ghost use Rattle.amf_text_trees.specs.Frames.{header as header_frame};
ghost use Rattle.amf_text_trees.specs.Frames.{message as message_frame};
ghost use Rattle.amf_text.specs.Tags.{dynamic as dynamic_tag, tag_of};
ghost use Rattle.amf_text_trees.specs.Pieces.{text as text_piece};
ghost use Rattle.amf_text_trees.specs.Gathering.{draft, giving, opening, document_by, no_page, no_header, no_message};
ghost use Rattle.amf_text_trees.specs.Gathering.{by_form, by_value, or_end, by_name, by_key, by_tag, by_first, class_by, vector_by};
ghost use Rattle.amf_text_trees.specs.Gathering.{same_frames, by_part, by_text, by_word, by_label, members_in};
ghost use Rattle.amf_text_gather.specs.Drafts.{draft_of, item_or_end};
ghost use Rattle.amf_text_pages.specs.Pages.{page_of, header_of, message_of, document_of};

use crate::draft::Draft;
use crate::frame::Frame;
use crate::piece::Piece;
use crate::scalars::number_entry;
use amf_text_pages::{Document, Entry, FileVersion, Header, Message, PacketForm, Page, Sheet};
use amf_text_read::{Tag, tag_of};
use amf_wire::Memory;
use json::Token;
use std::alloc::Global;
use std::mem;

/// A page of which nothing has come.
fn no_page(alloc: Global) -> Page
    ensures { page_of result ≡ no_page }
{
    Page {
        sheet: Sheet::new(alloc),
        table: Vec::new(alloc),
        root: Entry::Null,
    }
}

/// A header of which nothing has come.
fn no_header(alloc: Global) -> Header
    ensures { header_of result ≡ no_header }
{
    Header {
        name: Vec::new(alloc),
        must: false,
        form: PacketForm::Plain,
        page: no_page(alloc),
    }
}

/// A message of which nothing has come.
fn no_message(alloc: Global) -> Message
    ensures { message_of result ≡ no_message }
{
    Message {
        target: Vec::new(alloc),
        response: Vec::new(alloc),
        form: PacketForm::Plain,
        page: no_page(alloc),
    }
}

/// The document of a form, of which nothing has come.
fn document_by(alloc: Global, form: &str) -> Document
    ensures { document_of result ≡ document_by form.now }
{
    match form {
        "amf0" => Document::Value0(no_page(alloc)),
        "amf3" => Document::Value3(no_page(alloc)),
        "packet" => Document::Packet(0, Vec::new(alloc), Vec::new(alloc)),
        _ => Document::File(Vec::new(alloc), FileVersion::Amf0, no_page(alloc)),
    }
}

/// The bytes of a string or key.
fn bytes_of(alloc: Global, text: &str) -> Result<Vec<u8>, Memory>
    ensures { IfOk result (λ bytes. bytes.items ≡ text.now) }
{
    Ok(text.as_bytes().to_vec(alloc)?)
}

impl Draft {
    /// The word of a form.
    pub(crate) fn by_form(&mut self, token: &Token<'_>) -> Result<(), Memory>
        ensures { OnOk result (draft_of self.new ≡ by_form (token_of token.now) (draft_of self.old)) }
    {
        match token {
            Token::String(form) => self.push(Frame::Document(document_by(self.alloc, form))),
            _ => Ok(()),
        }
    }

    /// A text that is a string.
    fn give_text(&mut self, text: &str) -> Result<(), Memory>
        ensures { OnOk result (draft_of self.new ≡ giving (text_piece text.now) (draft_of self.old)) }
    {
        let text = bytes_of(self.alloc, text)?;
        self.put_text(text)
    }

    /// A value, which is an array where an array begins.
    pub(crate) fn by_value(&mut self, token: &Token<'_>) -> Result<(), Memory>
        ensures { OnOk result (draft_of self.new ≡ by_value read_number (token_of token.now) (draft_of self.old)) }
    {
        match token {
            Token::BeginArray => {
                let node = self.begin()?;
                self.push(Frame::Items(node, Vec::new(self.alloc)))
            }
            Token::BeginObject => Ok(()),
            Token::String(text) => {
                let text = bytes_of(self.alloc, text)?;
                self.give_value(Entry::Text(text))
            }
            Token::Number(number) => match number_entry(number) {
                Some(entry) => self.give_value(entry),
                None => Ok(()),
            },
            Token::Bool(flag) => self.give_value(Entry::Bool(*flag)),
            _ => self.give_value(Entry::Null),
        }
    }

    /// An item, or the end of a list.
    pub(crate) fn by_item(&mut self, token: &Token<'_>) -> Result<(), Memory>
        ensures { OnOk result (draft_of self.new ≡ item_or_end (token_of token.now) (draft_of self.old)) }
    {
        match token {
            Token::EndArray => self.finish(),
            token => self.by_value(token),
        }
    }

    /// The end of a list, or another token.
    pub(crate) fn by_end(&mut self, token: &Token<'_>) -> Result<(), Memory>
        ensures { OnOk result (draft_of self.new ≡ or_end (token_of token.now) (draft_of self.old) (draft_of self.old)) }
    {
        match token {
            Token::EndArray => self.finish(),
            _ => Ok(()),
        }
    }

    /// A name, or the end.
    pub(crate) fn by_name(&mut self, token: &Token<'_>) -> Result<(), Memory>
        ensures { OnOk result (draft_of self.new ≡ by_name (token_of token.now) (draft_of self.old)) }
    {
        match token {
            Token::Key(key) => self.give_text(key),
            _ => self.finish(),
        }
    }

    /// Dynamic members of a class begin.
    fn begin_dynamic(&mut self) -> Result<(), Memory>
        ensures { OnOk result (draft_of self.new ≡ draft (draft_of self.old).sheet (class_by dynamic_tag (draft_of self.old).frames)) }
    {
        match self.pop() {
            Some(Frame::Class(node, class)) => self.push(Frame::Dynamic(node, class.name)),
            Some(frame) => self.push(frame),
            None => Ok(()),
        }
    }

    /// Behind a class: a key before dynamic members, another one, or the end.
    pub(crate) fn by_class_key(&mut self, token: &Token<'_>) -> Result<(), Memory>
        ensures { OnOk result (draft_of self.new ≡ by_key (token_of token.now) class_by (draft_of self.old)) }
    {
        match token {
            Token::Key(key) => match tag_of(key) {
                Tag::Dynamic => self.begin_dynamic(),
                _ => Ok(()),
            },
            _ => self.finish(),
        }
    }

    /// Behind `$fixed`, a vector of this tag.
    fn begin_vector(&mut self, tag: Tag) -> Result<(), Memory>
        ensures { OnOk result (draft_of self.new ≡ draft (draft_of self.old).sheet (vector_by (tag_named tag) (draft_of self.old).frames)) }
    {
        match self.pop() {
            Some(Frame::Fixed(node, fixed)) => self.push(Frame::Vector(node, tag, fixed)),
            Some(frame) => self.push(frame),
            None => Ok(()),
        }
    }

    /// Behind `$fixed`: the key of a vector, or the end.
    pub(crate) fn by_vector_key(&mut self, token: &Token<'_>) -> Result<(), Memory>
        ensures { OnOk result (draft_of self.new ≡ by_key (token_of token.now) vector_by (draft_of self.old)) }
    {
        match token {
            Token::Key(key) => self.begin_vector(tag_of(key)),
            _ => self.finish(),
        }
    }

    /// A key that changes nothing, or the end.
    pub(crate) fn by_last_key(&mut self, token: &Token<'_>) -> Result<(), Memory>
        ensures { OnOk result (draft_of self.new ≡ by_key (token_of token.now) same_frames (draft_of self.old)) }
    {
        match token {
            Token::Key(_) => Ok(()),
            _ => self.finish(),
        }
    }

    /// An object by its names begins, with the name whose value is to come.
    fn open_plain(&mut self, name: Option<Vec<u8>>) -> Result<(), Memory>
        ensures { OnOk result (draft_of self.new ≡ opening (λ n. plain_frame n [] (option_map (λ x. x.items) name)) (draft_of self.old)) }
    {
        let node = self.begin()?;
        self.push(Frame::Plain(node, Vec::new(self.alloc), name))
    }

    /// The first key of an object.
    fn by_tag(&mut self, key: &str) -> Result<(), Memory>
        ensures { OnOk result (draft_of self.new ≡ by_tag (tag_of key.now) key.now (draft_of self.old)) }
    {
        match tag_of(key) {
            Tag::Name => {
                let name = bytes_of(self.alloc, key)?;
                self.open_plain(Some(name))
            }
            tag @ (Tag::Undefined | Tag::Double | Tag::Text | Tag::Node) => {
                self.push(Frame::Scalar(tag))
            }
            tag @ (Tag::Ints | Tag::Uints | Tag::Type) => {
                let node = self.begin()?;
                self.push(Frame::Vector(node, tag, false))
            }
            tag => {
                let node = self.begin()?;
                self.push(Frame::Tagged(node, tag))
            }
        }
    }

    /// The first key of an object, or its end.
    pub(crate) fn by_first(&mut self, token: &Token<'_>) -> Result<(), Memory>
        ensures { OnOk result (draft_of self.new ≡ by_first (token_of token.now) (draft_of self.old)) }
    {
        match token {
            Token::Key(key) => self.by_tag(key),
            _ => {
                self.open_plain(None)?;
                self.finish()
            }
        }
    }

    /// A header, on a sheet of its own, or the end of them.
    pub(crate) fn by_header(&mut self, token: &Token<'_>) -> Result<(), Memory>
        ensures { OnOk result (draft_of self.new ≡ by_part (token_of token.now) (header_frame no_header) (draft_of self.old)) }
    {
        match token {
            Token::BeginObject => {
                let around = mem::replace(&mut self.sheet, Sheet::new(self.alloc));
                self.push(Frame::Header(no_header(self.alloc), around))
            }
            _ => self.finish(),
        }
    }

    /// A message, on a sheet of its own, or the end of them.
    pub(crate) fn by_message(&mut self, token: &Token<'_>) -> Result<(), Memory>
        ensures { OnOk result (draft_of self.new ≡ by_part (token_of token.now) (message_frame no_message) (draft_of self.old)) }
    {
        match token {
            Token::BeginObject => {
                let around = mem::replace(&mut self.sheet, Sheet::new(self.alloc));
                self.push(Frame::Message(no_message(self.alloc), around))
            }
            _ => self.finish(),
        }
    }

    /// A text, or an object that stands for one.
    pub(crate) fn by_text(&mut self, token: &Token<'_>) -> Result<(), Memory>
        ensures { OnOk result (draft_of self.new ≡ by_text (token_of token.now) (draft_of self.old)) }
    {
        match token {
            Token::String(text) => self.give_text(text),
            _ => self.push(Frame::Quoted(Vec::new(self.alloc))),
        }
    }

    /// A name of a class, or the end of them.
    pub(crate) fn by_word(&mut self, token: &Token<'_>) -> Result<(), Memory>
        ensures { OnOk result (draft_of self.new ≡ by_word (token_of token.now) (draft_of self.old)) }
    {
        match token {
            Token::String(text) => self.give_text(text),
            _ => self.finish(),
        }
    }

    /// A label.
    pub(crate) fn by_label(&mut self, token: &Token<'_>) -> Result<(), Memory>
        ensures { OnOk result (draft_of self.new ≡ by_label (token_of token.now) (draft_of self.old)) }
    {
        match token {
            Token::String(text) => {
                let called = bytes_of(self.alloc, text)?;
                self.call(called)?;
                let label = bytes_of(self.alloc, text)?;
                self.give(Piece::Value(Entry::Label(label)))
            }
            _ => Ok(()),
        }
    }

    /// Members begin; those of a file are its root.
    pub(crate) fn open_members(&mut self) -> Result<(), Memory>
        ensures { OnOk result (draft_of self.new ≡ members_in (draft_of self.old).sheet (draft_of self.old).frames) }
    {
        match self.pop() {
            Some(Frame::Document(document)) => {
                self.push(Frame::Document(document))?;
                self.open_plain(None)
            }
            Some(frame) => {
                self.push(frame)?;
                self.push(Frame::Members(Vec::new(self.alloc), None))
            }
            None => self.push(Frame::Members(Vec::new(self.alloc), None)),
        }
    }
}
