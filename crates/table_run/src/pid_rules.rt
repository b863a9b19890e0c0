//! The rules that have PID actions, and the PID actions that they list.
ghost use Rattle.std.specs.Prelude.{◌≡◌, ℕ, ◌+◌, ◌<◌, ◌≤◌, ◌++◌, Some, IfOk, OnOk, length};
ghost use Rattle.std.specs.Prelude.{slice_get};
ghost use Rattle.std.specs.Prelude.{[], ◌∷◌, if◌then◌else◌};
ghost use Rattle.std.specs.Vec.{vec_len, vec_capacity};
ghost use Rattle.rule_types.specs.Fitting.{ActionsCounted};
ghost use Rattle.rule_types.specs.Reading.{branch_actions};
ghost use Rattle.rule_types.specs.WellFormed.{IsCountable};
ghost use Rattle.rule_types.specs.declared.rule.Rule.{Rule as AnyRule};
ghost use Rattle.rule_types.specs.declared.state.State.{State as AnyState};
ghost use Rattle.rule_meaning.specs.Premise.{listed_branch};
ghost use Rattle.action_values.specs.Links.{IsSound};
ghost use Rattle.table_run.specs.Pids.{is_pid_what, listed_pids};
ghost use Rattle.table_run.specs.internal.PidRules.{have_pid, has_pid as has_pid_action};
ghost use Rattle.table_run.specs.internal.PidRules.{pid_rules as numbers_of, pid_alone};
ghost use Rattle.table_run.specs.internal.PidRules.{pids_from, pids_of, rule_pids};

use byte_edge::NoMemory;
use list_types::push_within_capacity;
use premise_eval::{Values, premise};
use rule_types::{Action, ActionAt, Branch, Rule, Rules, State, What};
use std::alloc::Global;

/// The numbers of the rules that have a PID action, in the order of the file.
pub(crate) fn pid_rules(alloc: Global, rules: &[Rule]) -> Result<Vec<u32>, NoMemory>
    requires counted { IsCountable rules.now }
    ensures numbers { IfOk result (λ numbers. numbers.items ≡ numbers_of 0 rules.now) }
{
    let mut numbers = Vec::new(alloc);
    for number in 0..rules.len() {
        add_rule(&rules[number], number as u32, &mut numbers)?;
    }
    Ok(numbers)
}

/// Adds the number of a rule that has a PID action.
fn add_rule(rule: &Rule, number: u32, numbers: &mut Vec<u32>) -> Result<(), NoMemory>
    ensures added { OnOk result (numbers.new.items
        ≡ numbers.old.items ++ (if has_pid_action rule.now then number ∷ [] else [])) }
{
    if has_pid(rule) {
        numbers.push(number)?;
    }
    Ok(())
}

/// Whether a rule has a PID action.
fn has_pid(rule: &Rule) -> bool
    ensures { result ≡ has_pid_action rule.now }
{
    have_pid(rule.then_actions.as_slice()) || have_pid(rule.else_actions.as_slice())
}

/// Whether some action is a PID action.
fn have_pid(actions: &[Action]) -> bool
    ensures { result ≡ have_pid actions.now }
{
    actions.iter().any(|action| is_pid(&action.what))
}

/// Whether an action is a PID action.
fn is_pid(what: &What) -> bool
    ensures { result ≡ is_pid_what what.now }
{
    matches!(what, What::Pid(_, _))
}

/// Writes the listed pairs of PID actions into `pairs`, which has room for them, by the premises of
/// the rules that have a PID action.
pub(crate) fn list_pids(
    rules: &Rules,
    state: &State,
    values: &Values,
    numbers: &[u32],
    pairs: &mut Vec<ActionAt>,
)
    requires sound { IsSound rules.now state.now values.now }
    requires numbers { numbers.now ≡ numbers_of 0 rules.now.rules }
    requires room { (s : AnyState) → length (listed_pids rules.now s) ≤ vec_capacity pairs.old }
    ensures pairs { pairs.new.items ≡ listed_pids rules.now state.now }
    ensures capacity { vec_capacity pairs.old ≤ vec_capacity pairs.new }
{
    pairs.clear();
    for at in 0..numbers.len() {
        list_rule(rules, state, values, numbers[at], pairs);
    }
}

/// Adds the pairs of PID actions that a rule lists.
fn list_rule(rules: &Rules, state: &State, values: &Values, number: u32, pairs: &mut Vec<ActionAt>)
    requires sound { IsSound rules.now state.now values.now }
    requires within { number < length rules.now.rules }
    requires room { vec_len pairs.old
        + length (rule_pids rules.now state.now number (slice_get rules.now.rules number))
        ≤ vec_capacity pairs.old }
    ensures pairs { pairs.new.items ≡ pairs.old.items
        ++ rule_pids rules.now state.now number (slice_get rules.now.rules number) }
    ensures capacity { vec_capacity pairs.new ≡ vec_capacity pairs.old }
{
    let branch = branch_of(rules, state, values, number);
    list_branch(
        &rules.rules.as_slice()[number as usize],
        number,
        branch,
        pairs,
    );
}

/// The branch that a rule lists.
fn branch_of(rules: &Rules, state: &State, values: &Values, number: u32) -> Branch
    requires sound { IsSound rules.now state.now values.now }
    requires within { number < length rules.now.rules }
    ensures branch { (row : AnyRule) → slice_get rules.now.rules number ≡ Some row
        → result ≡ listed_branch rules.now state.now row }
{
    let _moment = state.moment;
    if premise(rules, values, number) {
        return Branch::Then;
    }
    Branch::Otherwise
}

/// Adds the pairs of the PID actions of a branch.
fn list_branch(row: &Rule, rule: u32, branch: Branch, pairs: &mut Vec<ActionAt>)
    requires counted { ActionsCounted row.now }
    requires room { vec_len pairs.old
        + length (pids_from rule branch 0 (branch_actions row.now branch))
        ≤ vec_capacity pairs.old }
    ensures pairs { pairs.new.items ≡ pairs.old.items
        ++ pids_from rule branch 0 (branch_actions row.now branch) }
    ensures capacity { vec_capacity pairs.new ≡ vec_capacity pairs.old }
{
    let actions = row.actions(branch).as_slice();
    for action in 0..actions.len() {
        add_pid(
            &actions[action].what,
            ActionAt {
                rule,
                branch,
                action: action as u32,
            },
            pairs,
        );
    }
}

/// Adds the pair of an action, if it is a PID action.
fn add_pid(what: &What, at: ActionAt, pairs: &mut Vec<ActionAt>)
    requires room { vec_len pairs.old + length (pid_alone what.now at) ≤ vec_capacity pairs.old }
    ensures pairs { pairs.new.items ≡ pairs.old.items ++ pid_alone what.now at }
    ensures capacity { vec_capacity pairs.new ≡ vec_capacity pairs.old }
{
    match what {
        What::Pid(_, _) => add(pairs, at),
        _ => {}
    }
}

/// Adds a pair where there is room.
fn add(pairs: &mut Vec<ActionAt>, at: ActionAt)
    requires room { vec_len pairs.old < vec_capacity pairs.old }
    ensures items { pairs.new.items ≡ pairs.old.items ++ at ∷ [] }
    ensures capacity { vec_capacity pairs.new ≡ vec_capacity pairs.old }
{
    match push_within_capacity(pairs, at) {
        Ok(()) => {}
        Err(_) => {}
    }
}
