//! What a text says: its nodes, pages of them, and documents.

ghost use Rattle.std.specs.Prelude.{◌≡◌};
ghost use Rattle.amf_text_trees.specs.Frames.{with_root, with_table, with_sheet, with_page, header_with, message_with};
ghost use Rattle.amf_text_pages.specs.Entries.{entry_of, pairs_of};
ghost use Rattle.amf_text_pages.specs.Pages.{sheet_of, page_of, header_of, message_of, document_of, named};
ghost use Rattle.amf_text_pages.specs.Written.{form_named};

use crate::entry::Entry;
use crate::written::{FileVersion, PacketForm};
use amf_graph::Wrapped;

/// A class, whether it is dynamic, and its dynamic members.
#[derive(Drop)]
pub struct Class {
    /// Its name, a text.
    pub name: Vec<u8>,
    /// Whether objects of it may have dynamic members.
    pub dynamic: bool,
    /// The dynamic members of this object, in the order of the text.
    pub members: Vec<(Vec<u8>, Entry)>,
}

/// A node, with its names and values. Doubles are given by their bits.
#[derive(Drop)]
pub enum Node {
    /// An array: its names with their values, and its items.
    Array(Vec<(Vec<u8>, Entry)>, Vec<Entry>),
    /// A dynamic object without class and sealed names.
    Open(Vec<(Vec<u8>, Entry)>),
    /// An object whose sealed members stand in the order of its class.
    Sealed(Class, Vec<(Vec<u8>, Entry)>),
    /// One of these sealed names, whose members stand in any order.
    Ordered(Class, Vec<Vec<u8>>, Vec<(Vec<u8>, Entry)>),
    /// An object of Flex that wraps one value.
    Wrapper(Wrapped, Entry),
    /// A vector of objects: whether its length is fixed, the name of their class, and its items.
    Values(bool, Vec<u8>, Vec<Entry>),
    /// A dictionary: whether its keys are weak, and keys and values in turn.
    Dictionary(bool, Vec<Entry>),
    /// The text of an XML document.
    XmlDocument(Vec<u8>),
    /// The text of an XML value.
    Xml(Vec<u8>),
    /// A date: milliseconds since 1970 in UTC, a double by its bits.
    Date(u64),
    /// Bytes.
    Bytes(Vec<u8>),
    /// A vector of integers, and whether its length is fixed.
    Ints(bool, Vec<i32>),
    /// A vector of unsigned integers, and whether its length is fixed.
    Uints(bool, Vec<u32>),
    /// A vector of doubles, and whether its length is fixed.
    Doubles(bool, Vec<u64>),
}

/// Nodes by their numbers, and the labels that were called, in the order of the text.
#[derive(Drop)]
pub struct Sheet {
    /// The nodes, each in the place of its number.
    pub nodes: Vec<Node>,
    /// The labels that were called.
    pub calls: Vec<Vec<u8>>,
}

/// A table of rows and a root, on a sheet of their own.
#[derive(Drop)]
pub struct Page {
    /// Its nodes and calls.
    pub sheet: Sheet,
    /// Its rows: labels with their nodes.
    pub table: Vec<(Vec<u8>, Entry)>,
    /// Its value.
    pub root: Entry,
}

/// A header of a packet (AMF 0, 4.2).
#[derive(Drop)]
pub struct Header {
    /// Its name, a text.
    pub name: Vec<u8>,
    /// Whether the receiver must understand it.
    pub must: bool,
    /// How its value is spelled.
    pub form: PacketForm,
    /// Its value; of a call the one item.
    pub page: Page,
}

/// A message of a packet (AMF 0, 4.3).
#[derive(Drop)]
pub struct Message {
    /// What it is for, a text.
    pub target: Vec<u8>,
    /// What its answer is for, a text.
    pub response: Vec<u8>,
    /// How its value is spelled.
    pub form: PacketForm,
    /// Its value; of a call the one item.
    pub page: Page,
}

/// What a text is of.
#[derive(Drop)]
pub enum Document {
    /// A value of AMF 3.
    Value3(Page),
    /// A value of AMF 0.
    Value0(Page),
    /// A shared object file: its name, the format of its values, and its pairs.
    File(Vec<u8>, FileVersion, Page),
    /// A packet (AMF 0, 4.1): its version, headers and messages.
    Packet(u16, Vec<Header>, Vec<Message>),
}

impl Page {
    /// With another root.
    pub fn with_root(self, root: Entry) -> Page
        ensures { page_of result ≡ with_root (entry_of root) (page_of self) }
    {
        Page {
            sheet: self.sheet,
            table: self.table,
            root,
        }
    }

    /// With another table.
    pub fn with_table(self, table: Vec<(Vec<u8>, Entry)>) -> Page
        ensures { page_of result ≡ with_table (pairs_of table) (page_of self) }
    {
        Page {
            sheet: self.sheet,
            table,
            root: self.root,
        }
    }

    /// With another sheet.
    pub fn with_sheet(self, sheet: Sheet) -> Page
        ensures { page_of result ≡ with_sheet (sheet_of sheet) (page_of self) }
    {
        Page {
            sheet,
            table: self.table,
            root: self.root,
        }
    }
}

impl Header {
    /// With another name.
    pub fn with_name(self, name: Vec<u8>) -> Header
        ensures { header_of result ≡ record { name = name.items; must = self.must; form = form_named self.form; graph = page_of self.page } }
    {
        Header {
            name,
            must: self.must,
            form: self.form,
            page: self.page,
        }
    }

    /// With another flag.
    pub fn with_must(self, must: bool) -> Header
        ensures { header_of result ≡ record { name = self.name.items; must = must; form = form_named self.form; graph = page_of self.page } }
    {
        Header {
            name: self.name,
            must,
            form: self.form,
            page: self.page,
        }
    }

    /// With another form.
    pub fn with_form(self, form: PacketForm) -> Header
        ensures { header_of result ≡ record { name = self.name.items; must = self.must; form = form_named form; graph = page_of self.page } }
    {
        Header {
            name: self.name,
            must: self.must,
            form,
            page: self.page,
        }
    }

    /// With another root.
    pub fn with_root(self, root: Entry) -> Header
        ensures { header_of result ≡ header_with (with_root (entry_of root)) (header_of self) }
    {
        Header {
            name: self.name,
            must: self.must,
            form: self.form,
            page: self.page.with_root(root),
        }
    }

    /// With another table.
    pub fn with_table(self, table: Vec<(Vec<u8>, Entry)>) -> Header
        ensures { header_of result ≡ header_with (with_table (pairs_of table)) (header_of self) }
    {
        Header {
            name: self.name,
            must: self.must,
            form: self.form,
            page: self.page.with_table(table),
        }
    }

    /// With another sheet.
    pub fn with_sheet(self, sheet: Sheet) -> Header
        ensures { header_of result ≡ header_with (with_sheet (sheet_of sheet)) (header_of self) }
    {
        Header {
            name: self.name,
            must: self.must,
            form: self.form,
            page: self.page.with_sheet(sheet),
        }
    }
}

impl Message {
    /// With another target, the one before as its response.
    pub fn with_text(self, text: Vec<u8>) -> Message
        ensures { message_of result ≡ record { target = text.items; response = self.target.items; form = form_named self.form; graph = page_of self.page } }
    {
        Message {
            target: text,
            response: self.target,
            form: self.form,
            page: self.page,
        }
    }

    /// With another form.
    pub fn with_form(self, form: PacketForm) -> Message
        ensures { message_of result ≡ record { target = self.target.items; response = self.response.items; form = form_named form; graph = page_of self.page } }
    {
        Message {
            target: self.target,
            response: self.response,
            form,
            page: self.page,
        }
    }

    /// With another root.
    pub fn with_root(self, root: Entry) -> Message
        ensures { message_of result ≡ message_with (with_root (entry_of root)) (message_of self) }
    {
        Message {
            target: self.target,
            response: self.response,
            form: self.form,
            page: self.page.with_root(root),
        }
    }

    /// With another table.
    pub fn with_table(self, table: Vec<(Vec<u8>, Entry)>) -> Message
        ensures { message_of result ≡ message_with (with_table (pairs_of table)) (message_of self) }
    {
        Message {
            target: self.target,
            response: self.response,
            form: self.form,
            page: self.page.with_table(table),
        }
    }

    /// With another sheet.
    pub fn with_sheet(self, sheet: Sheet) -> Message
        ensures { message_of result ≡ message_with (with_sheet (sheet_of sheet)) (message_of self) }
    {
        Message {
            target: self.target,
            response: self.response,
            form: self.form,
            page: self.page.with_sheet(sheet),
        }
    }
}

impl Document {
    /// With another name, where it is a file.
    pub fn with_name(self, name: Vec<u8>) -> Document
        ensures { document_of result ≡ named name.items (document_of self) }
    {
        match self {
            Document::File(_, version, page) => Document::File(name, version, page),
            other => other,
        }
    }

    /// With another root, where it is of one graph.
    pub fn with_root(self, root: Entry) -> Document
        ensures { document_of result ≡ with_page (with_root (entry_of root)) (document_of self) }
    {
        match self {
            Document::Value3(page) => Document::Value3(page.with_root(root)),
            Document::Value0(page) => Document::Value0(page.with_root(root)),
            Document::File(name, version, page) => {
                Document::File(name, version, page.with_root(root))
            }
            other => other,
        }
    }

    /// With another table, where it is of one graph.
    pub fn with_table(self, table: Vec<(Vec<u8>, Entry)>) -> Document
        ensures { document_of result ≡ with_page (with_table (pairs_of table)) (document_of self) }
    {
        match self {
            Document::Value3(page) => Document::Value3(page.with_table(table)),
            Document::Value0(page) => Document::Value0(page.with_table(table)),
            Document::File(name, version, page) => {
                Document::File(name, version, page.with_table(table))
            }
            other => other,
        }
    }

    /// With another sheet, where it is of one graph.
    pub fn with_sheet(self, sheet: Sheet) -> Document
        ensures { document_of result ≡ with_page (with_sheet (sheet_of sheet)) (document_of self) }
    {
        match self {
            Document::Value3(page) => Document::Value3(page.with_sheet(sheet)),
            Document::Value0(page) => Document::Value0(page.with_sheet(sheet)),
            Document::File(name, version, page) => {
                Document::File(name, version, page.with_sheet(sheet))
            }
            other => other,
        }
    }
}
