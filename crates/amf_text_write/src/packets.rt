ghost use Rattle.std.specs.Prelude.{◌≡◌, [], IfOk};
ghost use Rattle.amf_wire.specs.Text.{IsText};
ghost use Rattle.amf_graph.specs.Rooted.{content};
ghost use Rattle.amf_text.specs.Documents as document;
ghost use Rattle.amf_text_write.specs.Graphs.{TellsIn};
ghost use Rattle.amf_text_write.specs.PacketTexts.{form_of, header_of, message_of, header_tokens, message_tokens, AreHeaderTexts};
ghost use Rattle.amf_text_write.specs.PacketTexts.{AddsHeader, EndsHeaders, AddsMessage, IsPacketText};
ghost use Rattle.amf_text_write.specs.Plans.{IsPlannedWay};
ghost use Rattle.amf_text_write.specs.Ways.{graph_in};

use crate::graphs::Plan;
use crate::layout::{Layout, Output};
use crate::way::Way;
use amf_graph::Rooted;
use amf_wire::Memory;
use json::Token;
use std::alloc::Global;
use std::marker::Model;

/// In which way the value of a header or of a message uses AMF 3.
#[derive(Clone, Copy, Debug, PartialEq, Eq)]
pub enum PacketForm {
    /// Not at all. The graph is the lowered one. It has no integers, so whole doubles stand by their digits alone.
    Plain,
    /// A marker somewhere in it switches to AMF 3.
    Amf3,
    /// It is a call: a strict array of one item in AMF 3, of which the graph is.
    Call,
}

impl PacketForm {
    /// Its word in a text.
    fn word(self) -> &'static str
        ensures { result.now ≡ document.form_word (form_of self) }
    {
        match self {
            PacketForm::Plain => "plain",
            PacketForm::Amf3 => "amf3",
            PacketForm::Call => "call",
        }
    }

    /// Whether whole doubles stand by their digits alone.
    fn is_bare(self) -> bool
        ensures { result ≡ document.is_bare (form_of self) }
    {
        match self {
            PacketForm::Plain => true,
            _ => false,
        }
    }
}

/// The text of a packet up to the end of some header (AMF 0, 4.2).
#[derive(Drop)]
pub struct HeaderTexts {
    alloc: Global,
    output: Output,
}

impl Model for HeaderTexts {
    ghost use Rattle.amf_text_write.specs.Laid.{Shown, shown_code};

    ghost Value = { Shown };

    ghost coded = { shown_code };

    ghost view = { λ h. h.output };
}

/// The text of a packet up to the end of some message (AMF 0, 4.3).
#[derive(Drop)]
pub struct MessageTexts {
    alloc: Global,
    output: Output,
}

impl Model for MessageTexts {
    ghost use Rattle.amf_text_write.specs.Laid.{Shown, shown_code};

    ghost Value = { Shown };

    ghost coded = { shown_code };

    ghost view = { λ m. m.output };
}

impl Output {
    /// A header as an object.
    fn header_object(
        &mut self,
        name: &[u8],
        must: bool,
        form: PacketForm,
        way: &Way<'_>,
    ) -> Result<(), Memory>
        requires name { IsText name.now }
        requires planned { IsPlannedWay way.now }
        ensures { TellsIn way.now (header_tokens (header_of name.now must form (graph_in way.now))) result self.old self.new }
    {
        self.token(Token::BeginObject)?;
        self.key("form")?;
        self.string(form.word())?;
        self.key("must")?;
        self.flag(must)?;
        self.key("name")?;
        self.text(way.alloc, name)?;
        self.rows(way)?;
        self.root(way)?;
        self.token(Token::EndObject)
    }

    /// A message as an object.
    fn message_object(
        &mut self,
        target: &[u8],
        response: &[u8],
        form: PacketForm,
        way: &Way<'_>,
    ) -> Result<(), Memory>
        requires target { IsText target.now }
        requires response { IsText response.now }
        requires planned { IsPlannedWay way.now }
        ensures { TellsIn way.now (message_tokens (message_of target.now response.now form (graph_in way.now))) result self.old self.new }
    {
        self.token(Token::BeginObject)?;
        self.key("form")?;
        self.string(form.word())?;
        self.rows(way)?;
        self.key("response")?;
        self.text(way.alloc, response)?;
        self.root(way)?;
        self.key("target")?;
        self.text(way.alloc, target)?;
        self.token(Token::EndObject)
    }
}

impl HeaderTexts {
    /// The text of a packet up to its first header. It gives up where there is no memory.
    pub fn new(alloc: Global, layout: Layout) -> Result<HeaderTexts, Memory>
        ensures { IfOk result (λ texts. AreHeaderTexts layout [] texts) }
    {
        let mut output = Output::new(alloc, layout);
        output.token(Token::BeginObject)?;
        output.key("amf")?;
        output.string("packet")?;
        output.key("headers")?;
        output.token(Token::BeginArray)?;
        Ok(HeaderTexts { alloc, output })
    }

    /// One more header: its name, whether the receiver must understand it, and its value.
    ///
    /// It gives up where there is no memory, and is only dropped then.
    pub fn header(
        &mut self,
        name: &[u8],
        must: bool,
        form: PacketForm,
        graph: &Rooted,
    ) -> Result<(), Memory>
        requires { IsText name.now }
        ensures { AddsHeader (header_of name.now must form (content graph.now)) result self.old self.new }
    {
        let plan = Plan::of(self.alloc, graph)?;
        let way = plan.way(self.alloc, graph, form.is_bare());
        self.output.header_object(name, must, form, &way)
    }

    /// The end of the headers, and the text up to the first message. It gives up where there is no memory.
    pub fn into_messages(self) -> Result<MessageTexts, Memory>
        ensures { EndsHeaders self result }
    {
        let alloc = self.alloc;
        let mut output = self.output;
        output.token(Token::EndArray)?;
        output.key("messages")?;
        output.token(Token::BeginArray)?;
        Ok(MessageTexts { alloc, output })
    }
}

impl MessageTexts {
    /// One more message: what is called or answered, where to answer to, and its value.
    ///
    /// It gives up where there is no memory, and is only dropped then.
    pub fn message(
        &mut self,
        target: &[u8],
        response: &[u8],
        form: PacketForm,
        graph: &Rooted,
    ) -> Result<(), Memory>
        requires target { IsText target.now }
        requires response { IsText response.now }
        ensures { AddsMessage (message_of target.now response.now form (content graph.now)) result self.old self.new }
    {
        let plan = Plan::of(self.alloc, graph)?;
        let way = plan.way(self.alloc, graph, form.is_bare());
        self.output.message_object(target, response, form, &way)
    }

    /// The canonical text of the packet of this version, JSON (RFC 8259). It gives up where there is no memory.
    pub fn into_bytes(self, version: u16) -> Result<Vec<u8>, Memory>
        ensures { IfOk result (λ bytes. IsPacketText version self bytes.items) }
    {
        let mut output = self.output;
        output.token(Token::EndArray)?;
        output.key("version")?;
        output.uint(u64::from(version))?;
        output.token(Token::EndObject)?;
        output.into_bytes()
    }
}
