//! The rows of a table as a flat list, where each of them is one range of pieces.
ghost use Rattle.std.specs.Prelude.{◌≡◌, IfOk, IfSome, map};
ghost use Rattle.table_plan.specs.declared.plan_rows.PlanPart.TheVariants.{Pieces};
ghost use Rattle.table_plan.specs.internal.FlatRows.{clause_of, row_of};

use crate::plan_rows::{PieceRange, PlanClause, PlanPart, PlanRow};
use byte_edge::NoMemory;
use list_types::Items;
use rule_types::ActionAt;
use std::alloc::Global;

/// A row of one clause, whose one part is a range of pieces.
#[derive(Clone, Copy, Debug)]
pub struct PieceRow {
    pub range: PieceRange,
    /// The row holds where the piece does not lie in the range; else where it does.
    pub negated: bool,
    /// The action that is ordered.
    pub action: ActionAt,
}

/// The rows as a flat list, where each has one clause of one part, which is a range of pieces; else
/// nothing. NoMemory is the one error.
pub(crate) fn flat_rows(
    alloc: Global,
    rows: &[PlanRow],
) -> Result<Option<Items<PieceRow>>, NoMemory>
    ensures { IfOk result (λ flat. IfSome flat (λ flat. map row_of flat ≡ rows.now)) }
{
    let mut flat = Vec::new(alloc);
    for row in rows {
        let Some(piece_row) = flat_row(row) else {
            return Ok(None);
        };
        flat.push(piece_row)?;
    }
    Ok(Some(Items::from_vec(flat)))
}

/// A row as a flat one, where it has one clause of one part, which is a range of pieces.
fn flat_row(row: &PlanRow) -> Option<PieceRow>
    ensures { IfSome result (λ flat. row_of flat ≡ row.now) }
{
    let [clause] = row.clauses.as_slice() else {
        return None;
    };
    let range = only_range(clause)?;
    Some(PieceRow {
        range,
        negated: row.negated,
        action: row.action,
    })
}

/// The range of a clause of one part, where that is a range of pieces.
fn only_range(clause: &PlanClause) -> Option<PieceRange>
    ensures { IfSome result (λ range. clause_of range ≡ clause.now) }
{
    let [part] = clause.parts.as_slice() else {
        return None;
    };
    range_in(part)
}

/// The range of pieces that a part is, if it is one.
fn range_in(part: &PlanPart) -> Option<PieceRange>
    ensures { IfSome result (λ range. Pieces range ≡ part.now) }
{
    match part {
        PlanPart::Pieces(range) => Some(*range),
        PlanPart::Number(_) => None,
    }
}
