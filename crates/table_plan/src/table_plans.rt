//! The tables of a plan, made of tables.
ghost use Rattle.std.specs.Prelude.{◌≡◌, ℕ, All, length, IfOk};
ghost use Rattle.std.specs.List.{flat_map};
ghost use Rattle.table_plan.specs.Ends.{row_ends, table_ends};
ghost use Rattle.table_plan.specs.Plan.{pieces_of};
ghost use Rattle.table_plan.specs.PlanRows.{first_in, KnowsReads};
ghost use Rattle.table_plan.specs.Told.{Told, ordered_told};
ghost use Rattle.table_plan.specs.internal.Collected.{Places, column_sides, IsPlanned};
ghost use Rattle.table_plan.specs.internal.FlatRows.{KnowsFlat};
ghost use Rattle.table_plan.specs.internal.Planned.{PlansTable, PlansTables};

use crate::column_places::ColumnPlaces;
use crate::part_plans::plan_row;
use crate::piece_rows::flat_rows;
use crate::plan_column::PlanColumn;
use crate::plan_rows::{PlanRow, PlanTable};
use crate::table_reads::{columns_read, has_number};
use byte_edge::NoMemory;
use list_types::Items;
use std::alloc::Global;
use table_compiler::{LinkTable, TableRow};

/// The tables of a plan.
pub(crate) fn plan_tables(
    alloc: Global,
    places: &ColumnPlaces,
    columns: &[PlanColumn],
    tables: &[LinkTable],
) -> Result<Vec<PlanTable>, NoMemory>
    requires placed { Places places.now (column_sides columns.now) }
    requires planned { All (IsPlanned columns.now) (flat_map table_ends tables.now) }
    ensures orders { IfOk result (λ plan. PlansTables columns.now tables.now plan.items) }
    ensures reads { IfOk result (λ plan. All KnowsReads plan.items) }
    ensures flat { IfOk result (λ plan. All KnowsFlat plan.items) }
{
    let mut plan = Vec::new(alloc);
    for table in tables {
        plan.push(plan_table(alloc, places, columns, table)?)?;
    }
    Ok(plan)
}

/// The table of a plan.
fn plan_table(
    alloc: Global,
    places: &ColumnPlaces,
    columns: &[PlanColumn],
    table: &LinkTable,
) -> Result<PlanTable, NoMemory>
    requires placed { Places places.now (column_sides columns.now) }
    requires planned { All (IsPlanned columns.now) (table_ends table.now) }
    ensures orders { IfOk result (λ plan. PlansTable columns.now table.now plan) }
    ensures reads { IfOk result (λ plan. KnowsReads plan) }
    ensures flat { IfOk result (λ plan. KnowsFlat plan) }
{
    let rows = plan_rows(alloc, places, columns, table)?;
    let read = columns_read(alloc, rows.as_slice())?;
    let by_number = has_number(rows.as_slice());
    let flat = flat_rows(alloc, rows.as_slice())?;
    Ok(PlanTable {
        columns: Items::from_vec(read),
        by_number,
        rows: Items::from_vec(rows),
        flat,
    })
}

/// The rows of a table.
fn plan_rows(
    alloc: Global,
    places: &ColumnPlaces,
    columns: &[PlanColumn],
    table: &LinkTable,
) -> Result<Vec<PlanRow>, NoMemory>
    requires placed { Places places.now (column_sides columns.now) }
    requires planned { All (IsPlanned columns.now) (table_ends table.now) }
    ensures { IfOk result (λ plan. (told : Told)
        → first_in (pieces_of columns.now told.value) told.truth plan.items
        ≡ ordered_told told table.now.rows) }
{
    let mut plan = Vec::new(alloc);
    for row in table.rows.as_slice() {
        plan.push(plan_row(alloc, places, columns, row)?)?;
    }
    Ok(plan)
}
