//! The rows of a rule.
ghost use Rattle.std.specs.Prelude.{◌≡◌, ◌==◌, ◌++◌, ◌<◌, ◌^◌, ℕ, List, length, slice_get};
ghost use Rattle.std.specs.Prelude.{[], false, Some, IfOk, OnOk};
ghost use Rattle.std.specs.List.{list_any};
ghost use Rattle.std.specs.List.Sorted.{IsStrictlyIncreasing};
ghost use Rattle.rule_types.specs.WellFormed.{WellFormed, IsCountable};
ghost use Rattle.table_compiler.specs.declared.table.TableRow.{TableRow};
ghost use Rattle.table_compiler.specs.Rows.{row_of as row_at, first_on, branch_row, branch_rows};
ghost use Rattle.table_compiler.specs.Rows.{rule_rows};
ghost use Rattle.table_compiler.specs.internal.Filling.{tables_with, action_row};

use crate::clauses::is_possible;
use crate::groups::clauses_of;
use crate::row_lists::enter_row;
use crate::table::{Clause, LinkTable, TableRow};
use byte_edge::NoMemory;
use list_types::Items;
use rule_types::{Action, ActionAt, Branch, Rule, Rules};
use std::alloc::Global;

/// Enters the rows of the rule at a place, if there is one, in the tables of the controlled links.
pub(crate) fn enter_rule_at(
    alloc: Global,
    rules: &Rules,
    tables: &mut [LinkTable],
    place: u32,
) -> Result<(), NoMemory>
    requires well_formed { WellFormed rules.now }
    requires each { length tables.old ≡ length rules.now.controlled }
    ensures rows { OnOk result ((rows : ℕ → List TableRow)
        → tables.old ≡ tables_with rules.now.controlled rows
        → tables.new ≡ tables_with rules.now.controlled
        (λ link. rows link ++ rule_rows link place (slice_get rules.now.rules place))) }
    ensures each { length tables.new ≡ length tables.old }
{
    let Some(rule) = rules.rules.get(place as usize) else {
        return Ok(());
    };
    enter_rule(alloc, rules.controlled.as_slice(), tables, place, rule)?;
    Ok(())
}

/// Enters the rows of the rule at a place.
fn enter_rule(
    alloc: Global,
    links: &[u32],
    tables: &mut [LinkTable],
    place: u32,
    rule: &Rule,
) -> Result<(), NoMemory>
    requires rising { IsStrictlyIncreasing links.now }
    requires each { length tables.old ≡ length links.now }
    requires conditions { IsCountable rule.now.conditions }
    requires then_actions { IsCountable rule.now.then_actions }
    requires else_actions { IsCountable rule.now.else_actions }
    ensures rows { OnOk result ((rows : ℕ → List TableRow)
        → tables.old ≡ tables_with links.now rows
        → tables.new ≡ tables_with links.now
        (λ link. rows link ++ rule_rows link place (Some rule.now))) }
    ensures each { length tables.new ≡ length tables.old }
{
    let clauses = Items::from_vec(clauses_of(alloc, rule.conditions.as_slice())?);
    let then_actions = rule.then_actions.as_slice();
    enter_branch(
        alloc,
        links,
        tables,
        place,
        Branch::Then,
        &clauses,
        then_actions,
    )?;
    let else_actions = rule.else_actions.as_slice();
    enter_branch(
        alloc,
        links,
        tables,
        place,
        Branch::Otherwise,
        &clauses,
        else_actions,
    )?;
    Ok(())
}

/// Enters the rows of a branch of the rule at a place, whose premise has these clauses.
fn enter_branch(
    alloc: Global,
    links: &[u32],
    tables: &mut [LinkTable],
    place: u32,
    branch: Branch,
    clauses: &Items<Clause>,
    actions: &[Action],
) -> Result<(), NoMemory>
    requires rising { IsStrictlyIncreasing links.now }
    requires each { length tables.old ≡ length links.now }
    requires counted { IsCountable actions.now }
    ensures rows { OnOk result ((rows : ℕ → List TableRow)
        → tables.old ≡ tables_with links.now rows
        → tables.new ≡ tables_with links.now
        (λ link. rows link ++ branch_row place branch clauses.now (first_on link actions.now))) }
    ensures each { length tables.new ≡ length tables.old }
{
    for action in 0..actions.len() {
        let at = ActionAt {
            rule: place,
            branch,
            action: action as u32,
        };
        enter_action(alloc, links, tables, at, clauses, actions)?;
    }
    Ok(())
}

/// Enters the row of an action of a branch, if it is the first there on its link.
fn enter_action(
    alloc: Global,
    links: &[u32],
    tables: &mut [LinkTable],
    at: ActionAt,
    clauses: &Items<Clause>,
    actions: &[Action],
) -> Result<(), NoMemory>
    requires rising { IsStrictlyIncreasing links.now }
    requires each { length tables.old ≡ length links.now }
    requires within { at.action < length actions.now }
    ensures rows { OnOk result ((rows : ℕ → List TableRow)
        → tables.old ≡ tables_with links.now rows
        → tables.new ≡ tables_with links.now
        (λ link. rows link ++ action_row link at clauses.now actions.now)) }
    ensures each { length tables.new ≡ length tables.old }
{
    let link = actions[at.action as usize].link;
    if acts_on(&actions[..at.action as usize], link) {
        return Ok(());
    }
    let Some(row) = row_of(alloc, at, clauses)? else {
        return Ok(());
    };
    enter_row(links, tables, link, row)?;
    Ok(())
}

/// Whether some action is on a link.
fn acts_on(actions: &[Action], link: u32) -> bool
    ensures { result ≡ list_any (λ action. action.link == link) actions.now }
{
    actions.iter().any(|action| action.link == link)
}

/// The row of an action, where its rule's premise has these clauses, if it has one.
fn row_of(
    alloc: Global,
    at: ActionAt,
    clauses: &Items<Clause>,
) -> Result<Option<TableRow>, NoMemory>
    ensures { IfOk result (λ row. row ≡ row_at at clauses.now) }
{
    let possible = is_possible(clauses.as_slice());
    match (at.branch, possible) {
        (Branch::Then, true) => Ok(Some(full_row(at, false, clauses)?)),
        (Branch::Then, false) => Ok(None),
        (Branch::Otherwise, true) => Ok(Some(full_row(at, true, clauses)?)),
        (Branch::Otherwise, false) => Ok(Some(always_row(alloc, at))),
    }
}

/// The row of an action with a copy of clauses.
fn full_row(at: ActionAt, negated: bool, clauses: &Items<Clause>) -> Result<TableRow, NoMemory>
    ensures { IfOk result (λ row. row
        ≡ record { action = at; negated = negated; clauses = clauses.now }) }
{
    Ok(TableRow {
        action: at,
        negated,
        clauses: clauses.clone()?,
    })
}

/// The row of an action that always holds.
fn always_row(alloc: Global, at: ActionAt) -> TableRow
    ensures { result ≡ record { action = at; negated = false; clauses = [] } }
{
    TableRow {
        action: at,
        negated: false,
        clauses: Items::new(alloc),
    }
}
