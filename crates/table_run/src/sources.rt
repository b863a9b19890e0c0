//! Where the values of the columns of tables stand among the values of a reading.
ghost use Rattle.std.specs.Prelude.{◌≡◌, None, IfOk, IfSome, length};
ghost use Rattle.std.specs.Bool.{OnTrue};
ghost use Rattle.rule_types.specs.WellFormed.{WellFormed, IsCountable};
ghost use Rattle.table_run.specs.internal.Sources.{HasLeft, HasLeftAt, NoLeftBefore, NoLeftIn};
ghost use Rattle.premise_eval.specs.Kept.{IsPlan};
ghost use Rattle.table_run.specs.internal.Sources.{IsConditionOf, IsSource, AreSources};

use byte_edge::NoMemory;
use premise_eval::{Values, left_column};
use rule_types::{Key, Rule, Rules, Side};
use std::alloc::Global;
use std::collections::BTreeMap;
use table_plan::PlanColumn;

/// The place of a condition: its rule in the file, and its place in the rule's premise.
#[derive(Clone, Copy, Debug)]
pub(crate) struct ConditionAt {
    pub(crate) rule: u32,
    pub(crate) number: u32,
}

/// For each side that conditions have on their left a condition that has it.
#[derive(Drop)]
struct LeftSides {
    keys: BTreeMap<Key, ConditionAt>,
    names: Vec<ConditionAt>,
}

/// For each column of a plan the number of the column of the values that has its side, or None where
/// no condition has that on its left.
pub(crate) fn sources(
    alloc: Global,
    rules: &Rules,
    values: &Values,
    columns: &[PlanColumn],
) -> Result<Vec<Option<usize>>, NoMemory>
    requires well_formed { WellFormed rules.now }
    requires plan { IsPlan rules.now values.now }
    ensures sources { IfOk result
        (λ sources. AreSources rules.now values.now.columns columns.now sources.items) }
{
    let lefts = left_sides(alloc, rules)?;
    let mut sources = Vec::new(alloc);
    for column in columns {
        let source = source_of(rules, values, &lefts, &column.side);
        sources.push(source)?;
    }
    Ok(sources)
}

/// The number of the column of the values that has a side, where a condition has it on its left.
fn source_of(rules: &Rules, values: &Values, lefts: &LeftSides, side: &Side) -> Option<usize>
    requires well_formed { WellFormed rules.now }
    requires plan { IsPlan rules.now values.now }
    ensures source { IsSource rules.now values.now.columns side.now result }
{
    match condition_of(rules, lefts, side) {
        Some(at) => Some(left_column(rules, values, at.rule, at.number)),
        None => None,
    }
}

/// A condition that has a side on its left: the noted one, and failing that the first in the file.
fn condition_of(rules: &Rules, lefts: &LeftSides, side: &Side) -> Option<ConditionAt>
    requires well_formed { WellFormed rules.now }
    ensures source { IsConditionOf rules.now side.now result }
{
    if let Some(at) = noted(lefts, side) {
        if has_left(rules, &at, side) {
            return Some(at);
        }
    }
    first_condition(rules, side)
}

/// The condition that is noted for a side.
fn noted(lefts: &LeftSides, side: &Side) -> Option<ConditionAt> {
    match side {
        Side::Key(key) => lefts.keys.get(key).copied(),
        Side::Expr(name) => lefts.names.get(*name as usize).copied(),
    }
}

/// Whether there is a condition at a place with a side on its left.
fn has_left(rules: &Rules, at: &ConditionAt, side: &Side) -> bool
    ensures left { OnTrue result (HasLeft rules.now at.now side.now) }
{
    match rules.rules.get(at.rule as usize) {
        Some(row) => row_has_left(row, at.number, side),
        None => false,
    }
}

/// The first condition in the file that has a side on its left.
fn first_condition(rules: &Rules, side: &Side) -> Option<ConditionAt>
    requires well_formed { WellFormed rules.now }
    ensures found { IfSome result (λ at. HasLeft rules.now at side.now) }
    ensures absent { result ≡ None → NoLeftIn rules.now.rules (length rules.now.rules) side.now }
{
    for rule in 0..rules.rules.len() {
        if let Some(number) = first_in_rule(&rules.rules.as_slice()[rule], side) {
            return Some(ConditionAt {
                rule: rule as u32,
                number,
            });
        }
    }
    None
}

/// The place of the first condition of a rule that has a side on its left.
fn first_in_rule(row: &Rule, side: &Side) -> Option<u32>
    requires counted { IsCountable row.now.conditions }
    ensures found { IfSome result (λ number. HasLeftAt row.now.conditions number side.now) }
    ensures absent { result ≡ None
        → NoLeftBefore row.now.conditions (length row.now.conditions) side.now }
{
    for number in 0..row.conditions.len() {
        if row.conditions.as_slice()[number].left.is_same(side) {
            return Some(number as u32);
        }
    }
    None
}

/// Whether a rule has a condition at a place with a side on its left.
fn row_has_left(row: &Rule, number: u32, side: &Side) -> bool
    ensures left { OnTrue result (HasLeftAt row.now.conditions number side.now) }
{
    match row.conditions.get(number as usize) {
        Some(condition) => condition.left.is_same(side),
        None => false,
    }
}

/// Notes a condition for each side that conditions have on their left, so that it is found at once.
fn left_sides(alloc: Global, rules: &Rules) -> Result<LeftSides, NoMemory>
    requires well_formed { WellFormed rules.now }
{
    let first = ConditionAt { rule: 0, number: 0 };
    let mut lefts = LeftSides {
        keys: BTreeMap::new(alloc),
        names: vec![in alloc; first; rules.names.len()]?,
    };
    for rule in 0..rules.rules.len() {
        note_rule(&mut lefts, &rules.rules.as_slice()[rule], rule as u32)?;
    }
    Ok(lefts)
}

/// Notes the conditions of a rule.
fn note_rule(lefts: &mut LeftSides, row: &Rule, rule: u32) -> Result<(), NoMemory>
    requires counted { IsCountable row.now.conditions }
{
    for number in 0..row.conditions.len() {
        let at = ConditionAt {
            rule,
            number: number as u32,
        };
        note(lefts, &row.conditions.as_slice()[number].left, at)?;
    }
    Ok(())
}

/// Notes a condition for the side on its left.
fn note(lefts: &mut LeftSides, side: &Side, at: ConditionAt) -> Result<(), NoMemory> {
    match side {
        Side::Key(key) => {
            lefts.keys.insert(*key, at)?;
        }
        Side::Expr(name) => note_name(&mut lefts.names, *name as usize, at),
    }
    Ok(())
}

/// Notes a condition for a name.
fn note_name(names: &mut [ConditionAt], name: usize, at: ConditionAt) {
    if name < names.len() {
        names[name] = at;
    }
}
