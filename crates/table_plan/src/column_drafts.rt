//! Columns with the ends that are kept for them.
ghost use Rattle.std.specs.Prelude.{◌≡◌, ◌<◌, ◌∷◌, [], Some, None, All, List, length, map};
ghost use Rattle.std.specs.Prelude.{slice_get, slice_set, IfOk, OnOk};
ghost use Rattle.rule_types.specs.declared.condition.Side.{Side as AnySide};
ghost use Rattle.table_plan.specs.declared.column_ends.ColumnEnd.{ColumnEnd as AnyEnd};
ghost use Rattle.std.specs.List.{Contains};
ghost use Rattle.table_plan.specs.internal.Collected.{
  IsDraftOf,
  found,
  place_in,
  Places,
  draft_sides,
  IsKept,
  with_end,
};
ghost use Rattle.table_plan.specs.declared.column_drafts.ColumnDraft.{ColumnDraft as AnyDraft};

use crate::column_ends::ColumnEnd;
use crate::column_places::ColumnPlaces;
use byte_edge::NoMemory;
use exact_fraction::frac::Frac;
use interval_sets::Bound;
use list_types::Items;
use rule_types::Side;
use std::alloc::Global;

/// A column with the finite ends of its sets, in any order.
#[derive(Drop)]
pub(crate) struct ColumnDraft {
    pub(crate) side: Side,
    pub(crate) ends: Items<Frac>,
}

/// The columns of ends, each once, with their places.
pub(crate) fn drafts_of(
    alloc: Global,
    places: &mut ColumnPlaces,
    ends: &[ColumnEnd],
) -> Result<Vec<ColumnDraft>, NoMemory>
    requires { (column : AnySide) → found places.old column ≡ None }
    ensures placed { IfOk result (λ drafts. Places places.new (draft_sides drafts.items)) }
    ensures kept { IfOk result (λ drafts. All (IsKept drafts.items) ends.now) }
    ensures from { IfOk result (λ drafts. All (IsDraftOf ends.now) drafts.items) }
{
    let mut drafts = Vec::new(alloc);
    for end in ends {
        keep_end(alloc, places, &mut drafts, end)?;
    }
    Ok(drafts)
}

/// Keeps an end for its column.
fn keep_end(
    alloc: Global,
    places: &mut ColumnPlaces,
    drafts: &mut Vec<ColumnDraft>,
    end: &ColumnEnd,
) -> Result<(), NoMemory>
    requires { Places places.old (draft_sides drafts.old.items) }
    ensures placed { OnOk result (Places places.new (draft_sides drafts.new.items)) }
    ensures kept { OnOk result (IsKept drafts.new.items end.now) }
    ensures others { OnOk result ((e : AnyEnd) → IsKept drafts.old.items e
        → IsKept drafts.new.items e) }
    ensures from { OnOk result ((all : List AnyEnd) → Contains all end.now
        → All (IsDraftOf all) drafts.old.items → All (IsDraftOf all) drafts.new.items) }
{
    let at = place_of(alloc, places, drafts, end.side)?;
    add_end(drafts, at, &end.bound)?;
    Ok(())
}

/// The place of a column, which gets one if it has none.
fn place_of(
    alloc: Global,
    places: &mut ColumnPlaces,
    drafts: &mut Vec<ColumnDraft>,
    side: Side,
) -> Result<usize, NoMemory>
    requires { Places places.old (draft_sides drafts.old.items) }
    ensures placed { OnOk result (Places places.new (draft_sides drafts.new.items)) }
    ensures place { IfOk result (λ at. place_in (draft_sides drafts.new.items) side ≡ Some at) }
    ensures others { OnOk result ((e : AnyEnd) → IsKept drafts.old.items e
        → IsKept drafts.new.items e) }
    ensures from { OnOk result ((all : List AnyEnd)
        → Contains (map (λ e. e.side) all) side
        → All (IsDraftOf all) drafts.old.items → All (IsDraftOf all) drafts.new.items) }
{
    if let Some(at) = places.place(&side) {
        return Ok(at);
    }
    let at = drafts.len();
    drafts.push(ColumnDraft {
        side,
        ends: Items::new(alloc),
    })?;
    places.insert(side, at)?;
    Ok(at)
}

/// Adds an end to the column at a place.
fn add_end(drafts: &mut Vec<ColumnDraft>, at: usize, bound: &Bound) -> Result<(), NoMemory>
    requires { at < length drafts.old.items }
    ensures { OnOk result ((draft : AnyDraft) → slice_get drafts.old.items at ≡ Some draft
        → drafts.new.items ≡ slice_set drafts.old.items at (with_end draft bound.now)) }
{
    if let Bound::Bound(number, _) = bound {
        let draft = &mut drafts[at];
        draft.ends.push(*number)?;
    }
    Ok(())
}
