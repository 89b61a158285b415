//! Gives a builder the nodes of a sheet.

ghost use Rattle.std.specs.Prelude.{◌≡◌, ◌<◌, ◌+◌, ◌++◌, [], length, map, OnOk};
ghost use Rattle.std.specs.List.{AllByRecursion};
ghost use Rattle.amf_graph.specs.Arena.{HeadNames};
ghost use Rattle.amf_graph.specs.Bounds.{count_end, items_of};
ghost use Rattle.amf_graph.specs.Building.{stored_at, kept_node, changed};
ghost use Rattle.amf_sheet.specs.Filling.{with_nodes, row_head, begun_row, left_row, filled, IsFillable};
ghost use Rattle.amf_sheet.specs.Rows.{columns, RowIn, sheet_arena};
ghost use Rattle.amf_sheet.specs.Telling.{AreAllTold};

use crate::kept::kept;
use crate::parts::fill;
use crate::row::{Row, part};
use amf_graph::{Builder, NodeId, Shape, TextId, Value};
use amf_wire::Memory;
use std::mem;

/// Begins the node of a row behind the others. A node without parts is complete then.
fn begin_row(builder: &mut Builder, row: &mut Row) -> Result<(), Memory>
    requires names { HeadNames builder.old (row_head row.old) }
    requires items { items_of (row_head row.old) < count_end }
    requires few { length builder.old.nodes + 1 < count_end }
    ensures builder { OnOk result (builder.new ≡ kept_node builder.old (begun_row row.old)) }
    ensures row { OnOk result (row.new ≡ left_row row.old) }
{
    match mem::replace(row, Row::Untold) {
        Row::Untold => kept(builder.open_node(Shape::Array))?,
        Row::Leaf(leaf) => kept(builder.leaf(leaf))?,
        Row::Parts(shape, names, values) => {
            *row = Row::Parts(shape, names, values);
            kept(builder.open_node(shape))?
        }
    };
    Ok(())
}

/// Begins all nodes, in order.
fn begin_rows(builder: &mut Builder, rows: &mut [Row]) -> Result<(), Memory>
    requires names { AllByRecursion (λ r. HeadNames builder.old (row_head r)) rows.old }
    requires items { AllByRecursion (λ r. items_of (row_head r) < count_end) rows.old }
    requires few { length builder.old.nodes + length rows.old < count_end }
    ensures builder { OnOk result (builder.new ≡ with_nodes (builder.old.nodes ++ map begun_row rows.old) builder.old) }
    ensures rows { OnOk result (rows.new ≡ map left_row rows.old) }
{
    for row in rows.iter_mut() {
        begin_row(builder, row)?;
    }
    Ok(())
}

/// Gives the node of a row its parts.
fn fill_row(
    builder: &mut Builder,
    node: NodeId,
    row: &Row,
    names: &[(TextId, Value)],
    values: &[Value],
) -> Result<(), Memory>
    requires there { node.0 < length builder.old.nodes }
    requires row_in { RowIn (columns names.now values.now) row.now }
    requires parts { IsFillable builder.old (columns names.now values.now) row.now (stored_at builder.old node.0) }
    ensures { OnOk result (builder.new ≡ changed (filled (columns names.now values.now) row.now) node.0 builder.old) }
{
    match row {
        Row::Untold | Row::Leaf(_) => Ok(()),
        Row::Parts(shape, name_span, value_span) => {
            let names = part(names, *name_span);
            fill(builder, node, *shape, names, part(values, *value_span))
        }
    }
}

/// Gives a builder that has no nodes yet those of a sheet: all of them are begun, and then each gets its parts, the last one
/// first, so that the builder needs one set of lists for all.
pub(crate) fn build(
    builder: &mut Builder,
    rows: &mut [Row],
    names: &[(TextId, Value)],
    values: &[Value],
) -> Result<(), Memory>
    requires none { builder.old.nodes ≡ [] }
    requires few { length rows.old < count_end }
    requires rows_in { AllByRecursion (RowIn (columns names.now values.now)) rows.old }
    requires told { AreAllTold (sheet_arena builder.old (columns names.now values.now) rows.old) }
    ensures { OnOk result (builder.new ≡ sheet_arena builder.old (columns names.now values.now) rows.old) }
{
    begin_rows(builder, rows)?;
    let mut left = rows.len();
    while left > 0 {
        left -= 1;
        fill_row(builder, NodeId(left as u32), &rows[left], names, values)?;
    }
    Ok(())
}
