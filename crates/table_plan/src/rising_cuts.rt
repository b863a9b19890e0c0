//! The cuts of a column.
ghost use Rattle.std.specs.Prelude.{◌≡◌, false, List, All, IfOk, OnOk};
ghost use Rattle.std.specs.List.{Contains};
ghost use Rattle.std.specs.List.Sorted.{IsSortedBy};
ghost use Rattle.exact_fraction.specs.Number.{Rational};
ghost use Rattle.exact_fraction.specs.Order.{less};
ghost use Rattle.interval_sets.specs.Cuts.{IsRising};
ghost use Rattle.table_plan.specs.Pieces.{IsCut};
ghost use Rattle.table_plan.specs.internal.Collected.{AreMadeOf};
ghost use Rattle.table_plan.specs.internal.CutSteps.{above_last};

use crate::column_drafts::ColumnDraft;
use crate::plan_column::PlanColumn;
use byte_edge::NoMemory;
use exact_fraction::frac::Frac;
use exact_fraction::relation::Relation;
use interval_sets::CutList;
use std::alloc::Global;
use std::marker::Brand;

/// The columns of drafts, with their cuts.
pub(crate) fn columns_of(
    alloc: Global,
    drafts: Vec<ColumnDraft>,
) -> Result<Vec<PlanColumn>, NoMemory>
    ensures { IfOk result (λ columns. AreMadeOf drafts.items columns.items) }
{
    let mut columns = Vec::new(alloc);
    for draft in drafts.as_slice() {
        columns.push(column_of(alloc, draft)?)?;
    }
    Ok(columns)
}

/// The column of a draft.
fn column_of(alloc: Global, draft: &ColumnDraft) -> Result<PlanColumn, NoMemory>
    ensures side { IfOk result (λ column. column.side ≡ draft.now.side) }
    ensures cuts { IfOk result (λ column. All (IsCut column.cuts) draft.now.ends) }
    ensures from { IfOk result (λ column. All (Contains draft.now.ends) column.cuts) }
{
    Ok(PlanColumn {
        side: draft.side,
        cuts: cuts_of(alloc, draft.ends.as_slice())?,
    })
}

/// The cuts at numbers in any order.
fn cuts_of(alloc: Global, ends: &[Frac]) -> Result<CutList<Brand>, NoMemory>
    ensures cuts { IfOk result (λ cuts. All (IsCut cuts) ends.now) }
    ensures from { IfOk result (λ cuts. All (Contains ends.now) cuts) }
{
    let mut sorted = Vec::from_slice(alloc, ends)?;
    sorted.sort_unstable_by(|end, other| end.cmp(other));
    let cuts = without_repeats(alloc, sorted.as_slice())?;
    Ok(CutList::new(cuts))
}

/// Sorted numbers without repeats.
fn without_repeats(alloc: Global, sorted: &[Frac]) -> Result<Vec<Frac>, NoMemory>
    requires { IsSortedBy less sorted.now }
    ensures rising { IfOk result (λ cuts. IsRising cuts.items) }
    ensures cuts { IfOk result (λ cuts. All (IsCut cuts.items) sorted.now) }
    ensures from { IfOk result (λ cuts. All (Contains sorted.now) cuts.items) }
{
    let mut cuts = Vec::new(alloc);
    for end in sorted {
        push_above(&mut cuts, end)?;
    }
    Ok(cuts)
}

/// Adds a number that is not below the last of rising cuts, unless it is that one.
fn push_above(cuts: &mut Vec<Frac>, end: &Frac) -> Result<(), NoMemory>
    requires rising { IsRising cuts.old.items }
    requires not_below { All (λ cut. less end.now cut ≡ false) cuts.old.items }
    ensures rising { OnOk result (IsRising cuts.new.items) }
    ensures cut { OnOk result (IsCut cuts.new.items end.now) }
    ensures others { OnOk result ((p : Rational) → IsCut cuts.old.items p
        → IsCut cuts.new.items p) }
    ensures among { OnOk result ((x : Rational) → less x end.now ≡ false
        → All (λ cut. less x cut ≡ false) cuts.old.items
        → All (λ cut. less x cut ≡ false) cuts.new.items) }
    ensures from { OnOk result ((all : List Rational) → Contains all end.now
        → All (Contains all) cuts.old.items → All (Contains all) cuts.new.items) }
{
    if is_above_last(cuts.as_slice(), end) {
        cuts.push(*end)?;
    }
    Ok(())
}

/// Whether a number is above the last of others, if there is one.
fn is_above_last(cuts: &[Frac], end: &Frac) -> bool
    ensures { result ≡ above_last cuts.now end.now }
{
    match cuts.last() {
        Some(last) => Relation::Lt.holds(last, end),
        None => true,
    }
}
