ghost use Rattle.std.specs.Prelude.{◌≡◌, ◌<◌, length, get_or, IfOk};
ghost use Rattle.amf_graph.specs.Rooted.{content};
ghost use Rattle.amf_text_write.specs.Graphs.{TellsIn, row_tokens, each_row, table_tokens, root_tokens};
ghost use Rattle.amf_text_write.specs.Plans.{IsPlanOf, IsPlannedWay};
ghost use Rattle.amf_text_write.specs.Rows.{nodes_of};
ghost use Rattle.amf_text_write.specs.Ways.{graph_in};

use crate::layout::Output;
use crate::levels::LEVELS;
use crate::table::Table;
use crate::way::Way;
use amf_graph::Rooted;
use amf_iso::Numbering;
use amf_wire::Memory;
use json::Token;
use std::alloc::Global;

/// What has to be known of a graph before it is told.
#[derive(Drop)]
pub(crate) struct Plan {
    numbering: Numbering,
    table: Table,
}

impl Plan {
    /// The order of a graph's nodes, and its table.
    pub(crate) fn of(alloc: Global, graph: &Rooted) -> Result<Plan, Memory>
        ensures { IfOk result (λ plan. IsPlanOf (content graph.now) plan) }
    {
        let numbering = Numbering::of(alloc, graph)?;
        let table = Table::of(alloc, graph, &numbering)?;
        Ok(Plan { numbering, table })
    }

    /// How the graph is told: by this plan, which is its own.
    pub(crate) fn way<'g>(&'g self, alloc: Global, graph: &'g Rooted, bare: bool) -> Way<'g>
        requires { IsPlanOf (content graph.now) self.now }
        ensures planned { IsPlannedWay result }
        ensures graph { result.graph.now ≡ graph.now }
        ensures bare { result.bare ≡ bare }
    {
        Way {
            alloc,
            graph,
            numbering: &self.numbering,
            marks: &self.table.marks,
            rows: &self.table.rows,
            width: self.table.width,
            bare,
        }
    }
}

/// Graphs: members of an object.
impl Output {
    /// A row of the table: the label of a node, and what it holds.
    fn row(&mut self, number: u32, way: &Way<'_>) -> Result<(), Memory>
        requires planned { IsPlannedWay way.now }
        requires there { number < length way.now.numbering.now }
        ensures { TellsIn way.now (row_tokens (graph_in way.now) (get_or way.now.numbering.now number 0)) result self.old self.new }
    {
        let node = way.numbering.node_at(number);
        let label = way.label(node)?;
        self.key(label.as_str())?;
        self.node_tree(node, LEVELS - 1, way)
    }

    /// The rows of the table, in its order.
    fn each_row(&mut self, way: &Way<'_>) -> Result<(), Memory>
        requires { IsPlannedWay way.now }
        ensures { TellsIn way.now (each_row (graph_in way.now) (nodes_of way.now.numbering.now way.now.rows.now)) result self.old self.new }
    {
        for number in way.rows {
            self.row(*number, way)?;
        }
        Ok(())
    }

    /// The table, where it has rows.
    pub(crate) fn rows(&mut self, way: &Way<'_>) -> Result<(), Memory>
        requires { IsPlannedWay way.now }
        ensures { TellsIn way.now (table_tokens (graph_in way.now)) result self.old self.new }
    {
        if way.rows.is_empty() {
            return Ok(());
        }
        self.key("nodes")?;
        self.token(Token::BeginObject)?;
        self.each_row(way)?;
        self.token(Token::EndObject)
    }

    /// The root, and all that it leads to up to the table.
    pub(crate) fn root(&mut self, way: &Way<'_>) -> Result<(), Memory>
        ensures { TellsIn way.now (root_tokens (graph_in way.now)) result self.old self.new }
    {
        way.graph.is_finished();
        self.key("root")?;
        self.tree(way.graph.root(), LEVELS, way)
    }
}
