//! What the rows of a table read.
ghost use Rattle.std.specs.Prelude.{◌≡◌, ◌++◌, ◌==◌, ℕ, true, All, IsTrue, IfOk, OnOk};
ghost use Rattle.std.specs.List.{flat_map, list_any};
ghost use Rattle.table_plan.specs.PlanRows.{
  part_columns,
  clause_columns,
  row_columns,
  is_number as is_by_number,
  clause_has_number,
  row_has_number,
};

use crate::plan_rows::{PlanClause, PlanPart, PlanRow};
use byte_edge::NoMemory;
use std::alloc::Global;

/// The columns that rows read, each once.
pub(crate) fn columns_read(alloc: Global, rows: &[PlanRow]) -> Result<Vec<usize>, NoMemory>
    ensures { IfOk result (λ columns. All (λ column. IsTrue (list_any (λ c. c == column)
        columns.items)) (flat_map row_columns rows.now)) }
{
    let mut columns = all_columns(alloc, rows)?;
    columns.sort_unstable();
    let read = without_repeats(alloc, columns.as_slice())?;
    Ok(read)
}

/// The columns of all parts of rows.
fn all_columns(alloc: Global, rows: &[PlanRow]) -> Result<Vec<usize>, NoMemory>
    ensures { IfOk result (λ columns. columns.items ≡ flat_map row_columns rows.now) }
{
    let mut columns = Vec::new(alloc);
    for row in rows {
        push_row_columns(&mut columns, row)?;
    }
    Ok(columns)
}

/// Adds the columns of a row.
fn push_row_columns(columns: &mut Vec<usize>, row: &PlanRow) -> Result<(), NoMemory>
    ensures { OnOk result (columns.new.items ≡ columns.old.items ++ row_columns row.now) }
{
    for clause in row.clauses.as_slice() {
        push_clause_columns(columns, clause)?;
    }
    Ok(())
}

/// Adds the columns of a clause.
fn push_clause_columns(columns: &mut Vec<usize>, clause: &PlanClause) -> Result<(), NoMemory>
    ensures { OnOk result (columns.new.items ≡ columns.old.items ++ clause_columns clause.now) }
{
    for part in clause.parts.as_slice() {
        push_part_column(columns, part)?;
    }
    Ok(())
}

/// Adds the column of a part, if it reads one.
fn push_part_column(columns: &mut Vec<usize>, part: &PlanPart) -> Result<(), NoMemory>
    ensures { OnOk result (columns.new.items ≡ columns.old.items ++ part_columns part.now) }
{
    match part {
        PlanPart::Pieces(range) => {
            columns.push(range.column)?;
            Ok(())
        }
        PlanPart::Number(_) => Ok(()),
    }
}

/// Sorted numbers, each once.
fn without_repeats(alloc: Global, sorted: &[usize]) -> Result<Vec<usize>, NoMemory>
    ensures { IfOk result (λ columns. All (λ column. IsTrue (list_any (λ c. c == column)
        columns.items)) sorted.now) }
{
    let mut columns = Vec::new(alloc);
    for column in sorted {
        push_new(&mut columns, *column)?;
    }
    Ok(columns)
}

/// Adds a number, unless it is the last one.
fn push_new(columns: &mut Vec<usize>, column: usize) -> Result<(), NoMemory>
    ensures there { OnOk result (list_any (λ c. c == column) columns.new.items ≡ true) }
    ensures others { OnOk result ((other : ℕ) → list_any (λ c. c == other) columns.old.items ≡ true
        → list_any (λ c. c == other) columns.new.items ≡ true) }
{
    if ends_with(columns.as_slice(), column) {
        return Ok(());
    }
    columns.push(column)?;
    Ok(())
}

/// Whether a number is the last one, so that it is among them.
fn ends_with(columns: &[usize], column: usize) -> bool
    ensures { IsTrue result → list_any (λ c. c == column) columns.now ≡ true }
{
    match columns.last() {
        Some(last) => *last == column,
        None => false,
    }
}

/// Whether some part of rows is a condition by its place.
pub(crate) fn has_number(rows: &[PlanRow]) -> bool
    ensures { result ≡ list_any row_has_number rows.now }
{
    rows.iter().any(row_has_one)
}

/// Whether some part of a row is a condition by its place.
fn row_has_one(row: &PlanRow) -> bool
    ensures { result ≡ row_has_number row.now }
{
    row.clauses.as_slice().iter().any(clause_has_one)
}

/// Whether some part of a clause is a condition by its place.
fn clause_has_one(clause: &PlanClause) -> bool
    ensures { result ≡ clause_has_number clause.now }
{
    clause.parts.as_slice().iter().any(is_number)
}

/// Whether a part is a condition by its place.
fn is_number(part: &PlanPart) -> bool
    ensures { result ≡ is_by_number part.now }
{
    match part {
        PlanPart::Pieces(_) => false,
        PlanPart::Number(_) => true,
    }
}
