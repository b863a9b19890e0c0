//! Which row of a table holds.
ghost use Rattle.std.specs.Prelude.{◌≡◌, ℕ, Bool, map};
ghost use Rattle.std.specs.List.{list_all};
ghost use Rattle.rule_types.specs.declared.action.ActionAt.{ActionAt as AnyPair};
ghost use Rattle.table_plan.specs.PlanRows.{
  piece_at as column_piece,
  lies_among as is_among,
  part_by,
  clause_by,
  all_by,
  row_by,
  first_in,
  same_piece,
  keeps_table as table_keeps,
};
ghost use Rattle.table_plan.specs.internal.FlatRows.{row_of, KnowsFlat};

use crate::piece_rows::PieceRow;
use crate::plan_rows::{PieceRange, PlanClause, PlanPart, PlanRow, PlanTable};
use crate::truths::Truths;
use rule_types::ActionAt;

/// The piece of a column: none where its value is missing.
fn piece_at(pieces: &[Option<usize>], column: usize) -> Option<usize>
    ensures { result ≡ column_piece pieces.now column }
{
    *pieces.get(column)?
}

/// Whether the piece of a range's column lies in it.
fn lies_among(range: &PieceRange, pieces: &[Option<usize>]) -> bool
    ensures { result ≡ is_among range.now.first range.now.last
        (column_piece pieces.now range.now.column) }
{
    match piece_at(pieces, range.column) {
        Some(piece) => range.first <= piece && piece <= range.last,
        None => false,
    }
}

/// Whether a part holds, in a row of an action.
#[tactic(auto, unfolding(crate::specs::PlanRows::part_by))]
fn part_holds<T: Truths>(
    part: &PlanPart,
    pieces: &[Option<usize>],
    truths: &T,
    at: &ActionAt,
) -> bool
    ensures { result ≡ part_by pieces.now (T.truth truths.now at.now) part.now }
{
    match part {
        PlanPart::Pieces(range) => lies_among(range, pieces),
        PlanPart::Number(place) => truths.holds(at, *place),
    }
}

/// Whether some part of a clause holds.
#[tactic(auto, unfolding(crate::specs::PlanRows::clause_by))]
fn clause_holds<T: Truths>(
    clause: &PlanClause,
    pieces: &[Option<usize>],
    truths: &T,
    at: &ActionAt,
) -> bool
    ensures { result ≡ clause_by pieces.now (T.truth truths.now at.now) clause.now }
{
    clause
        .parts
        .as_slice()
        .iter()
        .any(|part| part_holds(part, pieces, truths, at))
}

/// Whether all clauses of a row hold.
fn all_hold<T: Truths>(row: &PlanRow, pieces: &[Option<usize>], truths: &T) -> bool
    ensures { result ≡ all_by pieces.now (T.truth truths.now row.now.action) row.now.clauses }
{
    row.clauses
        .as_slice()
        .iter()
        .all(|clause| clause_holds(clause, pieces, truths, &row.action))
}

/// Whether a row holds.
#[tactic(auto, unfolding(crate::specs::PlanRows::row_by))]
fn row_holds<T: Truths>(row: &PlanRow, pieces: &[Option<usize>], truths: &T) -> bool
    ensures { result ≡ row_by pieces.now (T.truth truths.now) row.now }
{
    let all = all_hold(row, pieces, truths);
    if row.negated { !all } else { all }
}

/// The action of the first row of a table that holds. `rows_tried` counts the rows that are looked
/// at.
pub(crate) fn first_row_of<T: Truths>(
    table: &PlanTable,
    pieces: &[Option<usize>],
    truths: &T,
    rows_tried: &mut u64,
) -> Option<ActionAt>
    requires { KnowsFlat table.now }
    ensures { result ≡ first_in pieces.now (T.truth truths.now) table.now.rows }
{
    match &table.flat {
        Some(flat) => first_flat_row(flat.as_slice(), pieces, rows_tried),
        None => first_row(table.rows.as_slice(), pieces, truths, rows_tried),
    }
}

/// Whether a flat row holds.
fn flat_row_holds(row: &PieceRow, pieces: &[Option<usize>]) -> bool
    ensures { (truth : AnyPair → ℕ → Bool) → result ≡ row_by pieces.now truth (row_of row.now) }
{
    lies_among(&row.range, pieces) != row.negated
}

/// The action of the first flat row that holds.
fn first_flat_row(
    rows: &[PieceRow],
    pieces: &[Option<usize>],
    rows_tried: &mut u64,
) -> Option<ActionAt>
    ensures { (truth : AnyPair → ℕ → Bool)
        → result ≡ first_in pieces.now truth (map row_of rows.now) }
{
    for flat in rows {
        *rows_tried = rows_tried.saturating_add(1);
        if flat_row_holds(flat, pieces) {
            return Some(flat.action);
        }
    }
    None
}

/// The action of the first row that holds.
#[tactic(auto, unfolding(crate::specs::PlanRows::first_in))]
fn first_row<T: Truths>(
    rows: &[PlanRow],
    pieces: &[Option<usize>],
    truths: &T,
    rows_tried: &mut u64,
) -> Option<ActionAt>
    ensures { result ≡ first_in pieces.now (T.truth truths.now) rows.now }
{
    for row in rows {
        *rows_tried = rows_tried.saturating_add(1);
        if row_holds(row, pieces, truths) {
            return Some(row.action);
        }
    }
    None
}

/// Whether no column of a table has another piece, and no part of it is a condition by its place.
#[tactic(auto, unfolding(crate::specs::PlanRows::keeps_table))]
pub(crate) fn keeps_table(table: &PlanTable, old: &[Option<usize>], new: &[Option<usize>]) -> bool
    ensures { result ≡ table_keeps table.now old.now new.now }
{
    if table.by_number {
        return false;
    }
    are_same(table.columns.as_slice(), old, new)
}

/// Whether columns have the same pieces in both lists.
fn are_same(columns: &[usize], old: &[Option<usize>], new: &[Option<usize>]) -> bool
    ensures { result ≡ list_all (λ column. same_piece (column_piece old.now column)
        (column_piece new.now column)) columns.now }
{
    columns
        .iter()
        .all(|column| same_piece_at(old, new, *column))
}

/// Whether a column has the same piece in both lists.
fn same_piece_at(old: &[Option<usize>], new: &[Option<usize>], column: usize) -> bool
    ensures { result ≡ same_piece (column_piece old.now column) (column_piece new.now column) }
{
    match (piece_at(old, column), piece_at(new, column)) {
        (None, None) => true,
        (Some(piece), Some(other)) => piece == other,
        _ => false,
    }
}
