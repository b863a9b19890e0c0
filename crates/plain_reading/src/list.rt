//! The listed pairs.
ghost use Rattle.std.specs.Prelude.{◌≡◌, ◌+◌, ◌<◌, ◌≤◌, [], ◌∷◌, ◌++◌, Some, IfOk, OnOk, length, slice_get};
ghost use Rattle.std.specs.Vec.{vec_len, vec_capacity};
ghost use Rattle.rule_types.specs.Fitting.{ActionsCounted};
ghost use Rattle.rule_types.specs.Reading.{branch_actions};
ghost use Rattle.rule_types.specs.declared.rule.Rule.{Rule as AnyRule};
ghost use Rattle.rule_meaning.specs.Premise.{listed, listed_branch, places_of};
ghost use Rattle.action_values.specs.Links.{IsSound};
ghost use Rattle.plain_reading.specs.Room.{rule_room, pair_room};

use byte_edge::NoMemory;
use list_types::push_within_capacity;
use premise_eval::{Values, premise};
use rule_types::{ActionAt, Branch, Rule, Rules, State};
use std::alloc::Global;

/// Writes the listed pairs into `pairs`, which has room for them.
pub(crate) fn list_pairs(rules: &Rules, state: &State, values: &Values, pairs: &mut Vec<ActionAt>)
    requires sound { IsSound rules.now state.now values.now }
    requires room { pair_room rules.now.rules ≤ vec_capacity pairs.old }
    ensures pairs { pairs.new.items ≡ listed rules.now state.now }
    ensures capacity { vec_capacity pairs.old ≤ vec_capacity pairs.new }
{
    pairs.clear();
    for i in 0..rules.rules.len() {
        list_rule(rules, state, values, i, pairs);
    }
}

/// Room for all pairs that rules can list.
pub(crate) fn room_for_pairs(alloc: Global, rules: &Rules) -> Result<Vec<ActionAt>, NoMemory>
    ensures room { IfOk result (λ pairs. pair_room rules.now.rules ≤ vec_capacity pairs) }
{
    let mut pairs = Vec::new(alloc);
    for rule in rules.rules.as_slice() {
        add_room(&mut pairs, rule.then_actions.len())?;
        add_room(&mut pairs, rule.else_actions.len())?;
    }
    Ok(pairs)
}

/// Lengthens a list of pairs by so many.
fn add_room(pairs: &mut Vec<ActionAt>, count: usize) -> Result<(), NoMemory>
    ensures longer { OnOk result (vec_len pairs.new ≡ vec_len pairs.old + count) }
{
    for _k in 0..count {
        pairs.push(ActionAt {
            rule: 0,
            branch: Branch::Then,
            action: 0,
        })?;
    }
    Ok(())
}

/// Adds the pairs that a rule lists.
fn list_rule(rules: &Rules, state: &State, values: &Values, i: usize, pairs: &mut Vec<ActionAt>)
    requires sound { IsSound rules.now state.now values.now }
    requires within { i < length rules.now.rules }
    requires room { (row : AnyRule) → slice_get rules.now.rules i ≡ Some row
        → vec_len pairs.old + rule_room row ≤ vec_capacity pairs.old }
    ensures pairs { (row : AnyRule) → slice_get rules.now.rules i ≡ Some row
        → pairs.new.items ≡ pairs.old.items
        ++ places_of i (listed_branch rules.now state.now row) 0
        (branch_actions row (listed_branch rules.now state.now row)) }
    ensures longer { (row : AnyRule) → slice_get rules.now.rules i ≡ Some row
        → vec_len pairs.new ≤ vec_len pairs.old + rule_room row }
    ensures capacity { vec_capacity pairs.new ≡ vec_capacity pairs.old }
{
    let branch = branch_of(rules, state, values, i);
    list_branch(&rules.rules.as_slice()[i], i as u32, branch, pairs);
}

/// The branch that a rule lists.
fn branch_of(rules: &Rules, state: &State, values: &Values, i: usize) -> Branch
    requires sound { IsSound rules.now state.now values.now }
    requires within { i < length rules.now.rules }
    ensures branch { (row : AnyRule) → slice_get rules.now.rules i ≡ Some row
        → result ≡ listed_branch rules.now state.now row }
{
    let _moment = state.moment;
    if premise(rules, values, i as u32) {
        return Branch::Then;
    }
    Branch::Otherwise
}

/// Adds the places of the actions of a branch.
fn list_branch(row: &Rule, rule: u32, branch: Branch, pairs: &mut Vec<ActionAt>)
    requires counted { ActionsCounted row.now }
    requires room { vec_len pairs.old + length (branch_actions row.now branch)
        ≤ vec_capacity pairs.old }
    ensures pairs { pairs.new.items ≡ pairs.old.items
        ++ places_of rule branch 0 (branch_actions row.now branch) }
    ensures longer { vec_len pairs.new
        ≡ vec_len pairs.old + length (branch_actions row.now branch) }
    ensures capacity { vec_capacity pairs.new ≡ vec_capacity pairs.old }
{
    for action in 0..row.actions(branch).len() {
        add(
            pairs,
            ActionAt {
                rule,
                branch,
                action: action as u32,
            },
        );
    }
}

/// Adds a pair where there is room.
fn add(pairs: &mut Vec<ActionAt>, at: ActionAt)
    requires room { vec_len pairs.old < vec_capacity pairs.old }
    ensures items { pairs.new.items ≡ pairs.old.items ++ at ∷ [] }
    ensures longer { vec_len pairs.new ≡ vec_len pairs.old + 1 }
    ensures capacity { vec_capacity pairs.new ≡ vec_capacity pairs.old }
{
    match push_within_capacity(pairs, at) {
        Ok(()) => {}
        Err(_) => {}
    }
}
