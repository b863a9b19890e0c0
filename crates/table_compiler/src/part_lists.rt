//! Lists of parts, in the order of clauses.
ghost use Rattle.std.specs.Prelude.{◌≡◌, ◌||◌, not, position, IfOk, OnOk};
ghost use Rattle.std.specs.Option.{is_some};
ghost use Rattle.table_compiler.specs.Parts.{same_column, column_before, part_before};
ghost use Rattle.table_compiler.specs.Parts.{part_of as part_at_place, united_part as part_united};
ghost use Rattle.table_compiler.specs.Parts.{met_part as part_met, with_part};
ghost use Rattle.table_compiler.specs.internal.PartPlaces.{is_past as stands_past};

use crate::part::{Column, Part};
use byte_edge::NoMemory;
use interval_sets::IntervalSet;
use rule_types::{Condition, Right, Side};
use std::alloc::Global;

/// What a condition at a place in its rule is by itself.
#[tactic(auto, unfolding(crate::specs::Parts::part_of))]
pub(crate) fn part_of(alloc: Global, place: u32, c: &Condition) -> Result<Part, NoMemory>
    ensures { IfOk result (λ part. part ≡ part_at_place place c.now) }
{
    if c.half_step {
        return Ok(Part::Number(place));
    }
    match &c.right {
        Right::Key(_) => Ok(Part::Number(place)),
        Right::Value(q) => Ok(Part::Column(c.left, IntervalSet::of(alloc, c.rel, *q)?)),
    }
}

/// Adds a part to the parts of a clause: it is united with the part on its column, where there is
/// one, and else stands in order.
pub(crate) fn add_part(alloc: Global, parts: &mut Vec<Part>, part: Part) -> Result<(), NoMemory>
    ensures { OnOk result (parts.new.items ≡ with_part parts.old.items part) }
{
    let Some(at) = place_of(parts, &part) else {
        parts.push(part)?;
        return Ok(());
    };
    if let Some(one) = united_part(alloc, &parts[at], &part)? {
        parts[at] = one;
        return Ok(());
    }
    parts.insert(at, part)?;
    Ok(())
}

/// The place of the first part that is on the column of a new one or behind it.
fn place_of(parts: &[Part], part: &Part) -> Option<usize>
    ensures { result ≡ position (λ held. stands_past held part.now) parts.now }
{
    parts.iter().position(|held| is_past(held, part))
}

/// Whether a part is on the column of a new one or behind it.
fn is_past(held: &Part, part: &Part) -> bool
    ensures { result ≡ stands_past held.now part.now }
{
    match (held, part) {
        (Part::Column(column, _), Part::Column(other, _)) => {
            is_same_column(column, other) || !is_before(column, other)
        }
        (Part::Column(_, _), Part::Number(_)) => false,
        (Part::Number(_), Part::Column(_, _)) => true,
        (Part::Number(place), Part::Number(other)) => place >= other,
    }
}

/// Whether two columns are one.
fn is_same_column(column: &Column, other: &Column) -> bool
    ensures { result ≡ same_column column.now other.now }
{
    match (column, other) {
        (Side::Key(key), Side::Key(other)) => key == other,
        (Side::Expr(name), Side::Expr(other)) => name == other,
        _ => false,
    }
}

/// Whether a column stands before another.
fn is_before(column: &Column, other: &Column) -> bool
    ensures { result ≡ column_before column.now other.now }
{
    match (column, other) {
        (Side::Key(key), Side::Key(other)) => key < other,
        (Side::Key(_), Side::Expr(_)) => true,
        (Side::Expr(_), Side::Key(_)) => false,
        (Side::Expr(name), Side::Expr(other)) => name < other,
    }
}

/// The part that holds where one of two parts on a column does.
fn united_part(alloc: Global, part: &Part, other: &Part) -> Result<Option<Part>, NoMemory>
    ensures { IfOk result (λ one. one ≡ part_united part.now other.now) }
{
    match (part, other) {
        (Part::Column(column, set), Part::Column(other, others)) => {
            if !is_same_column(column, other) {
                return Ok(None);
            }
            Ok(Some(Part::Column(*column, set.union(alloc, others)?)))
        }
        _ => Ok(None),
    }
}

/// Whether two parts are on one column.
pub(crate) fn are_on_one_column(part: &Part, other: &Part) -> bool
    ensures { result ≡ is_some (part_met part.now other.now) }
{
    match (part, other) {
        (Part::Column(column, _), Part::Column(other, _)) => is_same_column(column, other),
        _ => false,
    }
}

/// The part that holds where both of two parts on a column do.
pub(crate) fn met_part(alloc: Global, part: &Part, other: &Part) -> Result<Option<Part>, NoMemory>
    ensures { IfOk result (λ one. one ≡ part_met part.now other.now) }
{
    match (part, other) {
        (Part::Column(column, set), Part::Column(other, others)) => {
            if !is_same_column(column, other) {
                return Ok(None);
            }
            Ok(Some(Part::Column(*column, set.meet(alloc, others)?)))
        }
        _ => Ok(None),
    }
}
