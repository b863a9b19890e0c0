//! The clauses of a premise.
ghost use Rattle.std.specs.Prelude.{◌≡◌, ◌<◌, ◌+◌, ◌^◌, ◌∷◌, List, length, IfOk, OnOk};
ghost use Rattle.rule_types.specs.declared.condition.Condition.{Condition};
ghost use Rattle.rule_meaning.specs.Premise.{placed_from};
ghost use Rattle.table_compiler.specs.Clauses.{with_clause, clauses_of as clauses_from};
ghost use Rattle.table_compiler.specs.internal.Grouping.{going};

use crate::clauses::add_clause;
use crate::part::Part;
use crate::part_lists::{add_part, part_of};
use crate::table::Clause;
use byte_edge::NoMemory;
use list_types::Items;
use rule_types::Condition;
use std::alloc::Global;
use std::mem;

/// The clauses of a rule's conditions: one for each group of the premise, where conditions on one
/// column are united, and the clauses of one part on the same column are met into one. NoMemory is
/// the one error.
pub(crate) fn clauses_of(alloc: Global, conditions: &[Condition]) -> Result<Vec<Clause>, NoMemory>
    requires counted { length conditions.now < 2 ^ 32 }
    ensures { IfOk result (λ clauses. clauses.items ≡ clauses_from conditions.now) }
{
    let mut clauses = Vec::new(alloc);
    let Some((first, more)) = conditions.split_first() else {
        return Ok(clauses);
    };
    let mut parts = vec![in alloc; part_of(alloc, 0, first)?]?;
    for (at, c) in more.iter().enumerate() {
        add_condition(alloc, &mut clauses, &mut parts, at as u32 + 1, c)?;
    }
    add_group(alloc, &mut clauses, parts)?;
    Ok(clauses)
}

/// Goes on by the condition at a place: one that begins a group closes the group before it.
fn add_condition(
    alloc: Global,
    clauses: &mut Vec<Clause>,
    parts: &mut Vec<Part>,
    place: u32,
    c: &Condition,
) -> Result<(), NoMemory>
    ensures { OnOk result ((more : List Condition)
        → going clauses.old.items parts.old.items (placed_from place (c.now ∷ more))
        ≡ going clauses.new.items parts.new.items (placed_from (place + 1) more)) }
{
    let part = part_of(alloc, place, c)?;
    if !c.joined_by_and {
        add_part(alloc, parts, part)?;
        return Ok(());
    }
    let group = mem::replace(parts, vec![in alloc; part]?);
    add_group(alloc, clauses, group)?;
    Ok(())
}

/// Adds the clause of a group.
fn add_group(alloc: Global, clauses: &mut Vec<Clause>, parts: Vec<Part>) -> Result<(), NoMemory>
    ensures { OnOk result
        (clauses.new.items ≡ with_clause clauses.old.items (record { parts = parts.items })) }
{
    let parts = Items::from_vec(parts);
    add_clause(alloc, clauses, Clause { parts })
}
