//! The pairs that the rules of a question list.
ghost use Rattle.std.specs.Prelude.{◌≡◌, ◌<◌, [], ◌∷◌, ◌++◌, List, Some, IfOk, OnOk, length, slice_get};
ghost use Rattle.std.specs.Prelude.{if◌then◌else◌, IsTrue};
ghost use Rattle.rule_types.specs.Fitting.{ActionsCounted};
ghost use Rattle.rule_types.specs.Reading.{branch_actions};
ghost use Rattle.rule_types.specs.declared.action.Branch.TheVariants.{Otherwise, Then};
ghost use Rattle.rule_types.specs.declared.rule.Rule.{Rule as AnyRule};
ghost use Rattle.rule_meaning.specs.Premise.{listed_among, listed_branch, places_of};
ghost use Rattle.verdict_meaning.specs.Events.{branch_at};
ghost use Rattle.verdict_meaning.specs.Questions.{asked_numbers, is_asked};
ghost use Rattle.state_checker.specs.internal.Readings.{IsReading};

use box_eval::is_asked;
use byte_edge::NoMemory;
use premise_eval::{Values, premise};
use rule_types::{ActionAt, Branch, Rule, Rules, State};
use std::alloc::Global;
use verdict_meaning::Question;

/// The pairs that the question's rules list at a state.
pub(crate) fn listed_pairs(
    alloc: Global,
    rules: &Rules,
    question: &Question,
    state: &State,
    values: &Values,
) -> Result<Vec<ActionAt>, NoMemory>
    requires reading { IsReading rules.now question.now state.now values.now }
    ensures pairs { IfOk result (λ pairs. pairs.items
        ≡ listed_among (asked_numbers rules.now question.now) rules.now state.now) }
{
    let mut pairs = Vec::new(alloc);
    for number in 0..rules.rules.len() {
        list_asked(rules, question, state, values, number, &mut pairs)?;
    }
    Ok(pairs)
}

/// Adds the pairs that a rule lists, where it is the question's.
fn list_asked(
    rules: &Rules,
    question: &Question,
    state: &State,
    values: &Values,
    number: usize,
    pairs: &mut Vec<ActionAt>,
) -> Result<(), NoMemory>
    requires reading { IsReading rules.now question.now state.now values.now }
    requires within { number < length rules.now.rules }
    ensures pairs { OnOk result ((row : AnyRule) → slice_get rules.now.rules number ≡ Some row
        → pairs.new.items ≡ pairs.old.items
        ++ (if is_asked rules.now question.now number
        then places_of number (listed_branch rules.now state.now row) 0
        (branch_actions row (listed_branch rules.now state.now row)) else [])) }
{
    if !is_asked(rules, question, number) {
        return Ok(());
    }
    let branch = branch_at(rules, question, state, values, number);
    list_branch(
        &rules.rules.as_slice()[number],
        number as u32,
        branch,
        pairs,
    )
}

/// The branch that a rule of the question lists; THEN where there is no such rule.
pub(crate) fn branch_at(
    rules: &Rules,
    question: &Question,
    state: &State,
    values: &Values,
    number: usize,
) -> Branch
    requires reading { IsReading rules.now question.now state.now values.now }
    requires asked { IsTrue (is_asked rules.now question.now number) }
    ensures branch { result ≡ branch_at rules.now state.now number }
{
    let _asked = is_asked(rules, question, number);
    let _moment = state.moment;
    if rules.rules.len() <= number {
        return Branch::Then;
    }
    branch_by(premise(rules, values, number as u32))
}

/// The branch that is listed where a premise holds or does not.
fn branch_by(holds: bool) -> Branch
    ensures value { result ≡ (if holds then Then else Otherwise) }
{
    if holds {
        return Branch::Then;
    }
    Branch::Otherwise
}

/// Adds the places of the actions of a branch.
fn list_branch(
    row: &Rule,
    rule: u32,
    branch: Branch,
    pairs: &mut Vec<ActionAt>,
) -> Result<(), NoMemory>
    requires counted { ActionsCounted row.now }
    ensures pairs { OnOk result (pairs.new.items ≡ pairs.old.items
        ++ places_of rule branch 0 (branch_actions row.now branch)) }
{
    for action in 0..row.actions(branch).len() {
        let at = ActionAt {
            rule,
            branch,
            action: action as u32,
        };
        add(pairs, at)?;
    }
    Ok(())
}

/// Adds a pair.
fn add(pairs: &mut Vec<ActionAt>, at: ActionAt) -> Result<(), NoMemory>
    ensures adds { OnOk result (pairs.new.items ≡ pairs.old.items ++ at ∷ []) }
{
    pairs.push(at)?;
    Ok(())
}
