//! The ends of the sets of tables, each with its column.
ghost use Rattle.std.specs.Prelude.{◌≡◌, ◌++◌, OnOk, IfOk};
ghost use Rattle.std.specs.List.{flat_map};
ghost use Rattle.table_plan.specs.Ends.{
  interval_ends,
  part_ends,
  clause_ends,
  row_ends,
  table_ends,
};

use byte_edge::NoMemory;
use interval_sets::{Bound, Interval};
use rule_types::Side;
use std::alloc::Global;
use table_compiler::{Clause, LinkTable, Part, TableRow};

/// An end of an interval in the set of a column.
#[derive(Clone, Copy, Debug)]
pub(crate) struct ColumnEnd {
    pub(crate) side: Side,
    pub(crate) bound: Bound,
}

/// The ends of all sets of tables.
pub(crate) fn ends_of(alloc: Global, tables: &[LinkTable]) -> Result<Vec<ColumnEnd>, NoMemory>
    ensures { IfOk result (λ ends. ends.items ≡ flat_map table_ends tables.now) }
{
    let mut ends = Vec::new(alloc);
    for table in tables {
        push_table_ends(&mut ends, table)?;
    }
    Ok(ends)
}

/// Adds the ends of a table.
#[tactic(auto, unfolding(crate::specs::Ends::table_ends))]
fn push_table_ends(ends: &mut Vec<ColumnEnd>, table: &LinkTable) -> Result<(), NoMemory>
    ensures { OnOk result (ends.new.items ≡ ends.old.items ++ table_ends table.now) }
{
    for row in table.rows.as_slice() {
        push_row_ends(ends, row)?;
    }
    Ok(())
}

/// Adds the ends of a row.
#[tactic(auto, unfolding(crate::specs::Ends::row_ends))]
fn push_row_ends(ends: &mut Vec<ColumnEnd>, row: &TableRow) -> Result<(), NoMemory>
    ensures { OnOk result (ends.new.items ≡ ends.old.items ++ row_ends row.now) }
{
    for clause in row.clauses.as_slice() {
        push_clause_ends(ends, clause)?;
    }
    Ok(())
}

/// Adds the ends of a clause.
#[tactic(auto, unfolding(crate::specs::Ends::clause_ends))]
fn push_clause_ends(ends: &mut Vec<ColumnEnd>, clause: &Clause) -> Result<(), NoMemory>
    ensures { OnOk result (ends.new.items ≡ ends.old.items ++ clause_ends clause.now) }
{
    for part in clause.parts.as_slice() {
        push_part_ends(ends, part)?;
    }
    Ok(())
}

/// Adds the ends of a part.
#[tactic(auto, unfolding(crate::specs::Ends::part_ends))]
fn push_part_ends(ends: &mut Vec<ColumnEnd>, part: &Part) -> Result<(), NoMemory>
    ensures { OnOk result (ends.new.items ≡ ends.old.items ++ part_ends part.now) }
{
    match part {
        Part::Column(side, set) => push_set_ends(ends, side, set.pieces()),
        Part::Number(_) => Ok(()),
    }
}

/// Adds the ends of the intervals of a column's set.
fn push_set_ends(ends: &mut Vec<ColumnEnd>, side: &Side, set: &[Interval]) -> Result<(), NoMemory>
    ensures { OnOk result
        (ends.new.items ≡ ends.old.items ++ flat_map (interval_ends side.now) set.now) }
{
    for interval in set {
        push_interval_ends(ends, side, interval)?;
    }
    Ok(())
}

/// Adds both ends of an interval of a column's set.
fn push_interval_ends(
    ends: &mut Vec<ColumnEnd>,
    side: &Side,
    interval: &Interval,
) -> Result<(), NoMemory>
    ensures { OnOk result
        (ends.new.items ≡ ends.old.items ++ interval_ends side.now interval.now) }
{
    ends.push(ColumnEnd {
        side: *side,
        bound: interval.low,
    })?;
    ends.push(ColumnEnd {
        side: *side,
        bound: interval.high,
    })?;
    Ok(())
}
