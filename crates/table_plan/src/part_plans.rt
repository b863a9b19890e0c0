//! The rows of a plan, made of the rows of tables.
ghost use Rattle.std.specs.Prelude.{◌≡◌, ◌<◌, ◌||◌, ℕ, Bool, Option, Some, List, option_map};
ghost use Rattle.std.specs.Prelude.{length};
ghost use Rattle.std.specs.Prelude.{slice_get, All, IfOk, OnOk};
ghost use Rattle.std.specs.List.{list_any, list_all};
ghost use Rattle.exact_fraction.specs.Number.{Rational};
ghost use Rattle.rule_types.specs.declared.action.ActionAt.{ActionAt as At};
ghost use Rattle.rule_types.specs.declared.condition.Side.{Side as AnySide};
ghost use Rattle.table_compiler.specs.Meaning.{is_in};
ghost use Rattle.table_plan.specs.Ends.{part_ends, clause_ends, row_ends};
ghost use Rattle.table_plan.specs.Pieces.{piece};
ghost use Rattle.table_plan.specs.Plan.{pieces_of};
ghost use Rattle.table_plan.specs.PlanRows.{piece_at, part_by, clause_by, all_by, row_by};
ghost use Rattle.table_plan.specs.Told.{Told, part_told, clause_told, all_told, row_told};
ghost use Rattle.table_plan.specs.internal.Collected.{Places, column_sides, IsPlanned};
ghost use Rattle.table_plan.specs.Pieces.{IsCutEnd};
ghost use Rattle.table_plan.specs.internal.Planned.{AreCutEnds};

use crate::column_places::ColumnPlaces;
use crate::piece_ranges::range_of;
use crate::plan_column::PlanColumn;
use crate::plan_rows::{PlanClause, PlanPart, PlanRow};
use byte_edge::NoMemory;
use interval_sets::Interval;
use list_types::Items;
use std::alloc::Global;
use table_compiler::{Clause, Part, TableRow};

/// The row of a plan.
#[tactic(auto, unfolding(crate::specs::PlanRows::row_by, crate::specs::Told::row_told))]
pub(crate) fn plan_row(
    alloc: Global,
    places: &ColumnPlaces,
    columns: &[PlanColumn],
    row: &TableRow,
) -> Result<PlanRow, NoMemory>
    requires placed { Places places.now (column_sides columns.now) }
    requires planned { All (IsPlanned columns.now) (row_ends row.now) }
    ensures action { IfOk result (λ plan. plan.action ≡ row.now.action) }
    ensures holds { IfOk result (λ plan. (told : Told)
        → row_by (pieces_of columns.now told.value) told.truth plan ≡ row_told told row.now) }
{
    let clauses = plan_clauses(alloc, places, columns, row)?;
    Ok(PlanRow {
        action: row.action,
        negated: row.negated,
        clauses: Items::from_vec(clauses),
    })
}

/// The clauses of a row.
fn plan_clauses(
    alloc: Global,
    places: &ColumnPlaces,
    columns: &[PlanColumn],
    row: &TableRow,
) -> Result<Vec<PlanClause>, NoMemory>
    requires placed { Places places.now (column_sides columns.now) }
    requires planned { All (IsPlanned columns.now) (row_ends row.now) }
    ensures { IfOk result (λ plan. (value : AnySide → Option Rational) (truth : ℕ → Bool)
        → all_by (pieces_of columns.now value) truth plan.items
        ≡ all_told value truth row.now.clauses) }
{
    let mut plan = Vec::new(alloc);
    for clause in row.clauses.as_slice() {
        plan.push(plan_clause(alloc, places, columns, clause)?)?;
    }
    Ok(plan)
}

/// The clause of a plan.
#[tactic(auto, unfolding(crate::specs::PlanRows::clause_by, crate::specs::Told::clause_told))]
fn plan_clause(
    alloc: Global,
    places: &ColumnPlaces,
    columns: &[PlanColumn],
    clause: &Clause,
) -> Result<PlanClause, NoMemory>
    requires placed { Places places.now (column_sides columns.now) }
    requires planned { All (IsPlanned columns.now) (clause_ends clause.now) }
    ensures { IfOk result (λ plan. (value : AnySide → Option Rational) (truth : ℕ → Bool)
        → clause_by (pieces_of columns.now value) truth plan
        ≡ clause_told value truth clause.now) }
{
    let parts = plan_parts(alloc, places, columns, clause)?;
    Ok(PlanClause {
        parts: Items::from_vec(parts),
    })
}

/// The parts of a clause.
fn plan_parts(
    alloc: Global,
    places: &ColumnPlaces,
    columns: &[PlanColumn],
    clause: &Clause,
) -> Result<Vec<PlanPart>, NoMemory>
    requires placed { Places places.now (column_sides columns.now) }
    requires planned { All (IsPlanned columns.now) (clause_ends clause.now) }
    ensures { IfOk result (λ plan. (value : AnySide → Option Rational) (truth : ℕ → Bool)
        → list_any (part_by (pieces_of columns.now value) truth) plan.items
        ≡ list_any (part_told value truth) clause.now.parts) }
{
    let mut plan = Vec::new(alloc);
    for part in clause.parts.as_slice() {
        add_part(&mut plan, places, columns, part)?;
    }
    Ok(plan)
}

/// Adds the parts of a plan that stand for a part.
fn add_part(
    plan: &mut Vec<PlanPart>,
    places: &ColumnPlaces,
    columns: &[PlanColumn],
    part: &Part,
) -> Result<(), NoMemory>
    requires placed { Places places.now (column_sides columns.now) }
    requires planned { All (IsPlanned columns.now) (part_ends part.now) }
    ensures { OnOk result ((value : AnySide → Option Rational) (truth : ℕ → Bool)
        → list_any (part_by (pieces_of columns.now value) truth) plan.new.items
        ≡ (list_any (part_by (pieces_of columns.now value) truth) plan.old.items
        || part_told value truth part.now)) }
{
    match part {
        Part::Column(side, set) => {
            let Some(at) = places.place(side) else {
                return Ok(());
            };
            add_set(plan, at, column_at(columns, at), set.pieces())?;
            Ok(())
        }
        Part::Number(place) => {
            plan.push(PlanPart::Number(*place))?;
            Ok(())
        }
    }
}

/// The column at a place.
fn column_at(columns: &[PlanColumn], at: usize) -> &PlanColumn
    requires { at < length columns.now }
    ensures { slice_get columns.now at ≡ Some result.now }
{
    &columns[at]
}

/// Adds the ranges of a set of the column at a place.
fn add_set(
    plan: &mut Vec<PlanPart>,
    at: usize,
    column: &PlanColumn,
    set: &[Interval],
) -> Result<(), NoMemory>
    requires { All (AreCutEnds column.now.cuts) set.now }
    ensures { OnOk result ((pieces : List (Option ℕ)) (truth : ℕ → Bool) (value : Option Rational)
        → piece_at pieces at ≡ option_map (piece column.now.cuts) value
        → list_any (part_by pieces truth) plan.new.items
        ≡ (list_any (part_by pieces truth) plan.old.items || is_in set.now value)) }
{
    for interval in set {
        plan.push(PlanPart::Pieces(range_of(at, column, interval)))?;
    }
    Ok(())
}
