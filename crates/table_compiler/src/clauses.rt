//! Lists of clauses.
ghost use Rattle.std.specs.Prelude.{◌≡◌, [], ◌∷◌, position, option_map, IfOk, OnOk};
ghost use Rattle.table_compiler.specs.Clauses.{only_part as part_alone, met_clause as clause_met};
ghost use Rattle.table_compiler.specs.Clauses.{with_clause, never_holds as holds_never};
ghost use Rattle.table_compiler.specs.Clauses.{is_empty_part as part_is_empty};
ghost use Rattle.table_compiler.specs.Clauses.{is_possible as can_hold};
ghost use Rattle.table_compiler.specs.internal.PartPlaces.{is_met as meets};

use crate::part::Part;
use crate::part_lists::{are_on_one_column, met_part};
use crate::table::Clause;
use byte_edge::NoMemory;
use list_types::Items;
use std::alloc::Global;

/// Adds a clause: it is met with the first clause that has one part on the same column, where both
/// have one part alone, and else stands last.
pub(crate) fn add_clause(
    alloc: Global,
    clauses: &mut Vec<Clause>,
    clause: Clause,
) -> Result<(), NoMemory>
    ensures { OnOk result (clauses.new.items ≡ with_clause clauses.old.items clause) }
{
    let Some(at) = place_of(clauses, &clause) else {
        clauses.push(clause)?;
        return Ok(());
    };
    if let Some(part) = met_clause(alloc, &clauses[at], &clause)? {
        let one = clause_of_one(alloc, part)?;
        clauses[at] = one;
        return Ok(());
    }
    Ok(())
}

/// The clause of one part.
fn clause_of_one(alloc: Global, part: Part) -> Result<Clause, NoMemory>
    ensures { IfOk result (λ clause. clause ≡ record { parts = part ∷ [] }) }
{
    let parts = Items::from_vec(vec![in alloc; part]?);
    Ok(Clause { parts })
}

/// The place of the first clause that is met with a new one.
fn place_of(clauses: &[Clause], clause: &Clause) -> Option<usize>
    ensures { result ≡ position (λ held. meets held clause.now) clauses.now }
{
    clauses.iter().position(|held| is_met(held, clause))
}

/// Whether a clause is met with a new one: each has one part alone, and both are on one column.
fn is_met(held: &Clause, clause: &Clause) -> bool
    ensures { result ≡ meets held.now clause.now }
{
    match (only_part(held), only_part(clause)) {
        (Some(part), Some(other)) => are_on_one_column(part, other),
        _ => false,
    }
}

/// What two clauses are met into.
fn met_clause(alloc: Global, clause: &Clause, other: &Clause) -> Result<Option<Part>, NoMemory>
    ensures { IfOk result (λ one. one ≡ clause_met clause.now other.now) }
{
    match (only_part(clause), only_part(other)) {
        (Some(part), Some(other)) => met_part(alloc, part, other),
        _ => Ok(None),
    }
}

/// The part of a clause that has just one.
fn only_part(clause: &Clause) -> Option<&Part>
    ensures { option_map (λ part. part.now) result ≡ part_alone clause.now.parts }
{
    match clause.parts.as_slice() {
        [part] => Some(part),
        _ => None,
    }
}

/// Whether no clause is one that can never hold.
#[tactic(auto, unfolding(crate::specs::Clauses::is_possible))]
pub(crate) fn is_possible(clauses: &[Clause]) -> bool
    ensures { result ≡ can_hold clauses.now }
{
    clauses.iter().all(|clause| !never_holds(clause))
}

/// Whether a clause can never hold: it has no part, or one column alone and no number of it.
fn never_holds(clause: &Clause) -> bool
    ensures { result ≡ holds_never clause.now.parts }
{
    match clause.parts.as_slice() {
        [] => true,
        [part] => is_empty_part(part),
        _ => false,
    }
}

/// Whether a part is a column with no number of it.
fn is_empty_part(part: &Part) -> bool
    ensures { result ≡ part_is_empty part.now }
{
    match part {
        Part::Column(_, set) => set.pieces().is_empty(),
        Part::Number(_) => false,
    }
}
