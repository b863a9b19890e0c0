//! Intervals as ranges of pieces.
ghost use Rattle.std.specs.Prelude.{◌≡◌, ◌&&◌, nat_le};
ghost use Rattle.exact_fraction.specs.Number.{Rational};
ghost use Rattle.interval_sets.specs.Intervals.{lies_in, is_above, is_below};
ghost use Rattle.table_plan.specs.Pieces.{piece};
ghost use Rattle.table_plan.specs.Pieces.{IsCutEnd};

use crate::plan_column::PlanColumn;
use crate::plan_rows::PieceRange;
use interval_sets::{Bound, Interval};

/// The range of pieces of an interval whose finite ends are cuts of the column at a place.
pub(crate) fn range_of(at: usize, column: &PlanColumn, interval: &Interval) -> PieceRange
    requires low { IsCutEnd column.now.cuts interval.now.low }
    requires high { IsCutEnd column.now.cuts interval.now.high }
    ensures column { result.column ≡ at }
    ensures range { (x : Rational) → lies_in interval.now x
        ≡ (nat_le result.first (piece column.now.cuts x)
        && nat_le (piece column.now.cuts x) result.last) }
{
    PieceRange {
        column: at,
        first: first_above(column, &interval.low),
        last: last_below(column, &interval.high),
    }
}

/// The first piece above a low end.
fn first_above(column: &PlanColumn, low: &Bound) -> usize
    requires { IsCutEnd column.now.cuts low.now }
    ensures { (x : Rational) → is_above low.now x ≡ nat_le result (piece column.now.cuts x) }
{
    match low {
        Bound::NoBound => 0,
        Bound::Bound(number, true) => column.piece(*number) + 1,
        Bound::Bound(number, false) => column.piece(*number),
    }
}

/// The last piece below a high end.
fn last_below(column: &PlanColumn, high: &Bound) -> usize
    requires { IsCutEnd column.now.cuts high.now }
    ensures { (x : Rational) → is_below high.now x ≡ nat_le (piece column.now.cuts x) result }
{
    match high {
        Bound::NoBound => 2 * column.cuts.count(),
        Bound::Bound(number, true) => column.piece(*number) - 1,
        Bound::Bound(number, false) => column.piece(*number),
    }
}
