ghost use Rattle.std.specs.Prelude.{◌≡◌, IfOk};
ghost use Rattle.amf_graph.specs.Rooted.{content};
ghost use Rattle.amf_text_write.specs.Graphs.{TellsIn};
ghost use Rattle.amf_text_write.specs.Plans.{IsPlannedWay};
ghost use Rattle.amf_text_write.specs.ValueTexts.{form_name, is_bare, value_object, IsValueText};
ghost use Rattle.amf_text_write.specs.Ways.{graph_in};

use crate::graphs::Plan;
use crate::layout::{Layout, Output};
use crate::way::Way;
use amf_graph::Rooted;
use amf_wire::Memory;
use json::Token;
use std::alloc::Global;

/// What the text of one value is of.
#[derive(Clone, Copy, Debug, PartialEq, Eq)]
pub enum ValueForm {
    /// A value of AMF 3.
    Amf3,
    /// The lowered graph of a value of AMF 0. It has no integers, so whole doubles stand by their digits alone.
    Amf0,
}

impl ValueForm {
    /// Its word in a text.
    fn name(self) -> &'static str
        ensures { result.now ≡ form_name self }
    {
        match self {
            ValueForm::Amf3 => "amf3",
            ValueForm::Amf0 => "amf0",
        }
    }

    /// Whether whole doubles stand by their digits alone.
    fn is_bare(self) -> bool
        ensures { result ≡ is_bare self }
    {
        match self {
            ValueForm::Amf3 => false,
            ValueForm::Amf0 => true,
        }
    }
}

impl Output {
    /// A value as an object: its form, its table and its root.
    fn value_object(&mut self, form: ValueForm, way: &Way<'_>) -> Result<(), Memory>
        requires { IsPlannedWay way.now }
        ensures { TellsIn way.now (value_object form (graph_in way.now)) result self.old self.new }
    {
        self.token(Token::BeginObject)?;
        self.key("amf")?;
        self.string(form.name())?;
        self.rows(way)?;
        self.root(way)?;
        self.token(Token::EndObject)
    }
}

/// The canonical text of a value, JSON (RFC 8259).
///
/// It gives up where there is no memory.
pub fn value_text(
    alloc: Global,
    layout: Layout,
    form: ValueForm,
    graph: &Rooted,
) -> Result<Vec<u8>, Memory>
    ensures { IfOk result (λ bytes. IsValueText layout form (content graph.now) bytes.items) }
{
    let plan = Plan::of(alloc, graph)?;
    let mut output = Output::new(alloc, layout);
    output.value_object(form, &plan.way(alloc, graph, form.is_bare()))?;
    output.into_bytes()
}
