ghost use Rattle.std.specs.Prelude.{◌≡◌, ◌<◌, ◌∷◌, ◌++◌, [], true, max, set, length, decimal, IfOk, OnOk};
ghost use Rattle.amf_graph.specs.Order.{IsOrder};
ghost use Rattle.amf_graph.specs.Rooted.{content};
ghost use Rattle.amf_text_write.specs.Rows.{has_row, IsTabled};

use crate::levels::count_levels;
use crate::meetings::{Meetings, count_meetings};
use amf_graph::Rooted;
use amf_iso::Numbering;
use amf_wire::Memory;
use itoa::Buffer;
use std::alloc::Global;

/// The nodes of a graph that stand in its table.
#[derive(Drop)]
pub(crate) struct Table {
    /// By number, whether the node has a row.
    pub(crate) marks: Vec<bool>,
    /// The numbers of those that have one, from the least on.
    pub(crate) rows: Vec<u32>,
    /// How many digits the longest of these has.
    pub(crate) width: usize,
}

/// How many decimal digits a number has.
fn digit_count(number: u32) -> usize
    ensures { result ≡ length (decimal number) }
{
    let mut digits = Buffer::new();
    digits.format(number).len()
}

/// Whether a node has a row: it is met more than once, or would stand too deep, which begins the levels anew.
fn has_row(meetings: Meetings, level: u8, number: u32) -> bool
    ensures { result ≡ has_row meetings level number }
{
    match meetings {
        Meetings::More => true,
        _ => level == 1 && number != 0,
    }
}

impl Table {
    /// One more row.
    fn push(&mut self, number: u32) -> Result<(), Memory>
        requires { number < length self.old.marks.items }
        ensures marks { OnOk result (self.new.marks.items ≡ set self.old.marks.items number true) }
        ensures rows { OnOk result (self.new.rows.items ≡ self.old.rows.items ++ number ∷ []) }
        ensures width { OnOk result (self.new.width ≡ max self.old.width (length (decimal number))) }
    {
        self.marks[number as usize] = true;
        self.width = self.width.max(digit_count(number));
        self.rows.push(number)?;
        Ok(())
    }

    /// The table of a graph: the nodes that are met more than once, and those that would stand too deep.
    pub(crate) fn of(alloc: Global, graph: &Rooted, numbering: &Numbering) -> Result<Table, Memory>
        requires { IsOrder (content graph.now) numbering.now }
        ensures { IfOk result (λ t. IsTabled (content graph.now) numbering.now t.marks.items t.rows.items t.width) }
    {
        let counts = count_meetings(alloc, graph, numbering)?;
        let levels = count_levels(alloc, graph, numbering, &counts)?;
        let marks = vec![in alloc; false; counts.len()]?;
        let rows = Vec::new(alloc);
        let mut table = Table {
            marks,
            rows,
            width: 0,
        };
        for number in 0..numbering.count() {
            let place = number as usize;
            if has_row(counts[place], levels[place], number) {
                table.push(number)?;
            }
        }
        Ok(table)
    }
}
