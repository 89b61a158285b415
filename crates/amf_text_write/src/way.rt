ghost use Rattle.std.specs.Prelude.{◌≡◌, ◌<◌, ◌==◌, ◌||◌, false, string_bytes, OnOk, IfOk};
ghost use Rattle.json.specs.Tree.{json_tokens};
ghost use Rattle.amf_graph.specs.Renumbered.{place_of};
ghost use Rattle.amf_text.specs.Told as told;
ghost use Rattle.amf_text_write.specs.Laid.{with_more};
ghost use Rattle.amf_text_write.specs.Ways.{IsWayOf};

use crate::layout::Output;
use amf_graph::{NodeId, Rooted};
use amf_iso::Numbering;
use amf_wire::Memory;
use itoa::Buffer;
use json::Token;
use std::alloc::Global;

/// How a graph is told.
#[derive(Clone, Copy)]
pub(crate) struct Way<'g> {
    pub(crate) alloc: Global,
    pub(crate) graph: &'g Rooted,
    pub(crate) numbering: &'g Numbering,
    /// By number, whether the node stands in the table.
    pub(crate) marks: &'g [bool],
    /// The numbers of these nodes, from the least on.
    pub(crate) rows: &'g [u32],
    /// How many digits the largest number of the table has.
    pub(crate) width: usize,
    /// Whether whole doubles stand by their digits alone.
    pub(crate) bare: bool,
}

impl Way<'_> {
    /// The number of a node; where the root does not lead to it, the first number that no node has.
    fn number_of(&self, node: NodeId) -> u32
        ensures { result ≡ place_of self.now.numbering.now node.0 }
    {
        match self.numbering.number_of(node) {
            Some(number) => number,
            None => self.numbering.count(),
        }
    }

    /// Whether a node stands in the table.
    fn has_row(&self, node: NodeId) -> bool
        ensures { (w : told.Way) → IsWayOf self.now w → result ≡ told.in_table w node.0 }
    {
        match self.marks.get(self.number_of(node) as usize) {
            Some(mark) => *mark,
            None => false,
        }
    }

    /// Whether a node is named by its label: it stands in the table, or no levels are left for it.
    pub(crate) fn is_called(&self, node: NodeId, levels: u8) -> bool
        ensures called { (w : told.Way) → IsWayOf self.now w → result ≡ ((levels == 0) || told.in_table w node.0) }
        ensures levels { result ≡ false → 0 < levels }
    {
        levels == 0 || self.has_row(node)
    }

    /// The label of a node: its number, in as many digits as the largest one of the table has.
    pub(crate) fn label(&self, node: NodeId) -> Result<String, Memory>
        ensures { (w : told.Way) → IsWayOf self.now w → IfOk result (λ label. string_bytes label ≡ told.label_of w node.0) }
    {
        let mut digits = Buffer::new();
        let digits = digits.format(self.number_of(node));
        let zeros = self.width.saturating_sub(digits.len());
        let mut label = "0".repeat(self.alloc, zeros)?;
        label.push_str(digits)?;
        Ok(label)
    }
}

impl Output {
    /// A node by its label.
    pub(crate) fn called(&mut self, node: NodeId, way: &Way<'_>) -> Result<(), Memory>
        ensures { (w : told.Way) → IsWayOf way.now w → OnOk result (self.new ≡ with_more self.old (json_tokens (told.called w node.0))) }
    {
        let label = way.label(node)?;
        self.token(Token::BeginObject)?;
        self.key("$node")?;
        self.string(label.as_str())?;
        self.token(Token::EndObject)
    }
}
