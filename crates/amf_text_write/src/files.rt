ghost use Rattle.std.specs.Prelude.{◌≡◌, ◌<◌, length, IfOk};
ghost use Rattle.amf_wire.specs.Text.{IsText};
ghost use Rattle.amf_graph.specs.Graph.{node};
ghost use Rattle.amf_graph.specs.Rooted.{content};
ghost use Rattle.amf_text.specs.Documents as document;
ghost use Rattle.amf_text_write.specs.Graphs.{TellsIn, pairs_member};
ghost use Rattle.amf_text_write.specs.Plans.{IsPlannedWay};
ghost use Rattle.amf_text_write.specs.ValueTexts.{version_of, file_object, HasNodeRoot, IsFileText};
ghost use Rattle.amf_text_write.specs.Ways.{arena_in, graph_in};

use crate::graphs::Plan;
use crate::layout::{Layout, Output};
use crate::levels::LEVELS;
use crate::members::put_by_name;
use crate::way::Way;
use amf_graph::{NodeId, NodeView, Rooted, Value};
use amf_wire::Memory;
use json::Token;
use std::alloc::Global;

/// How a shared object file spells its values, which its version says.
#[derive(Clone, Copy, Debug, PartialEq, Eq)]
pub enum FileVersion {
    /// Version 0: in AMF 0. The graph is the lowered one. It has no integers, so whole doubles stand by their digits alone.
    Amf0,
    /// Version 3: in AMF 3.
    Amf3,
}

impl FileVersion {
    /// Its number.
    fn number(self) -> u64
        ensures { result ≡ document.version_of (version_of self) }
    {
        match self {
            FileVersion::Amf0 => 0,
            FileVersion::Amf3 => 3,
        }
    }

    /// Whether whole doubles stand by their digits alone.
    fn is_bare(self) -> bool
        ensures { result ≡ document.is_bare_file (version_of self) }
    {
        match self {
            FileVersion::Amf0 => true,
            FileVersion::Amf3 => false,
        }
    }
}

impl Output {
    /// The named values of a node, as a member.
    fn pairs(&mut self, holder: NodeId, way: &Way<'_>) -> Result<(), Memory>
        requires { holder.0 < length (arena_in way.now).nodes }
        ensures { TellsIn way.now (pairs_member (graph_in way.now) holder.0) result self.old self.new }
    {
        way.graph.is_finished();
        let members = match way.graph.node(holder) {
            NodeView::Object { members, .. } => members,
            NodeView::Array { names, .. } => names,
            _ => &[],
        };
        let mut waiting = Vec::new(way.alloc);
        put_by_name(LEVELS - 1, members, way, &mut waiting)?;
        self.key("pairs")?;
        self.drain(way, &mut waiting)
    }

    /// A file as an object: its name, its table, the pairs of its holder, and its version.
    fn file_object(
        &mut self,
        name: &[u8],
        version: FileVersion,
        holder: NodeId,
        way: &Way<'_>,
    ) -> Result<(), Memory>
        requires name { IsText name.now }
        requires planned { IsPlannedWay way.now }
        requires holder { holder.0 < length (arena_in way.now).nodes }
        ensures { TellsIn way.now (file_object name.now version (graph_in way.now) holder.0) result self.old self.new }
    {
        self.token(Token::BeginObject)?;
        self.key("amf")?;
        self.string("sol")?;
        self.key("name")?;
        self.text(way.alloc, name)?;
        self.rows(way)?;
        self.pairs(holder, way)?;
        self.key("version")?;
        self.uint(version.number())?;
        self.token(Token::EndObject)
    }
}

/// The node that the root is.
fn holder_of(graph: &Rooted) -> NodeId
    requires { HasNodeRoot (content graph.now) }
    ensures there { result.0 < length graph.now.arena.nodes }
    ensures root { (content graph.now).root ≡ node result.0 }
{
    graph.is_finished();
    match graph.root() {
        Value::Node(holder) => holder,
        _ => unreachable!(),
    }
}

/// The canonical text of a shared object file, JSON (RFC 8259): of its name, and of a graph whose root is the node that holds
/// its pairs.
///
/// It gives up where there is no memory.
pub fn file_text(
    alloc: Global,
    layout: Layout,
    name: &[u8],
    version: FileVersion,
    graph: &Rooted,
) -> Result<Vec<u8>, Memory>
    requires name { IsText name.now }
    requires root { HasNodeRoot (content graph.now) }
    ensures { IfOk result (λ bytes. IsFileText layout name.now version (content graph.now) bytes.items) }
{
    let holder = holder_of(graph);
    let plan = Plan::of(alloc, graph)?;
    let way = plan.way(alloc, graph, version.is_bare());
    let mut output = Output::new(alloc, layout);
    output.file_object(name, version, holder, &way)?;
    output.into_bytes()
}
