//! The tables of a plan.
use crate::piece_rows::PieceRow;
use list_types::Items;
use rule_types::ActionAt;

/// A range of the pieces of a column, of which both ends are part.
#[derive(Clone, Copy, Debug)]
pub struct PieceRange {
    /// The column, by its place in the plan.
    pub column: usize,
    pub first: usize,
    pub last: usize,
}

/// A part of a clause.
#[derive(Clone, Copy, Debug)]
pub enum PlanPart {
    /// The piece of the column lies in the range; a missing value lies in none.
    Pieces(PieceRange),
    /// The condition at this place, from 0, of the row's rule holds.
    Number(u32),
}

/// A clause of a row: it holds where some part holds.
#[derive(Debug, Drop)]
pub struct PlanClause {
    pub parts: Items<PlanPart>,
}

/// A row of a table: where it holds, and no row before it does, its action is ordered.
#[derive(Debug, Drop)]
pub struct PlanRow {
    /// The action that is ordered.
    pub action: ActionAt,
    /// The row holds where some clause does not hold; else where all clauses hold.
    pub negated: bool,
    pub clauses: Items<PlanClause>,
}

/// The table of a link.
#[derive(Debug, Drop)]
pub struct PlanTable {
    /// The columns that its rows read, by their places in the plan.
    pub columns: Items<usize>,
    /// Whether some part of its rows is a condition by its place.
    pub by_number: bool,
    pub rows: Items<PlanRow>,
    /// The rows once more as a flat list, where each has one clause of one part, which is a range
    /// of pieces.
    pub flat: Option<Items<PieceRow>>,
}
