//! Pairs of a rule and an action, and which of two goes before the other.
ghost use Rattle.std.specs.Prelude.{◌≡◌, option_map};
ghost use Rattle.rule_types.specs.Reading.{branch_actions};
ghost use Rattle.rule_types.specs.Ranks.{outranks as ranks_above, precedes as comes_before};
ghost use Rattle.rule_meaning.specs.Settled.{action_at as action_of, priority_at as priority_of};
ghost use Rattle.rule_meaning.specs.Settled.{beats};

use exact_fraction::frac::Frac;
use exact_fraction::relation::Relation;
use rule_types::{Action, ActionAt, Branch, Rule};

/// The link that a pair's action acts on, if the rules have this action.
#[tactic(auto, unfolding(rule_meaning::specs::Settled::action_at))]
pub(crate) fn link_at(rules: &[Rule], at: &ActionAt) -> Option<u32>
    ensures value { result ≡ option_map (λ action. action.link) (action_of rules.now at.now) }
{
    let rule = rules.get(at.rule as usize)?;
    let action = actions_of(rule, at.branch).get(at.action as usize)?;
    Some(action.link)
}

/// The actions of one of a rule's branches.
fn actions_of(rule: &Rule, branch: Branch) -> &[Action]
    ensures value { result.now ≡ branch_actions rule.now branch }
{
    match branch {
        Branch::Then => rule.then_actions.as_slice(),
        Branch::Otherwise => rule.else_actions.as_slice(),
    }
}

/// The priority of a pair's rule.
#[tactic(auto, unfolding(rule_meaning::specs::Settled::priority_at))]
fn priority_at(rules: &[Rule], at: &ActionAt) -> Option<Frac>
    ensures value { result ≡ priority_of rules.now at.now }
{
    let rule = rules.get(at.rule as usize)?;
    rule.priority
}

/// Whether a priority ranks above another: no priority ranks below every number.
fn outranks(priority: &Option<Frac>, other: &Option<Frac>) -> bool
    ensures value { result ≡ ranks_above priority.now other.now }
{
    match (priority, other) {
        (Some(number), Some(held)) => Relation::Lt.holds(held, number),
        (Some(_), None) => true,
        (None, _) => false,
    }
}

/// Whether the rule at a place, of a priority, precedes another rule.
fn precedes(priority: &Option<Frac>, place: u32, other: &Option<Frac>, other_place: u32) -> bool
    ensures value { result ≡ comes_before priority.now place other.now other_place }
{
    if outranks(priority, other) {
        return true;
    }
    if outranks(other, priority) {
        return false;
    }
    place < other_place
}

/// Whether a pair goes before another.
#[tactic(auto, unfolding(rule_meaning::specs::Settled::beats))]
pub(crate) fn goes_before(rules: &[Rule], pair: &ActionAt, other: &ActionAt) -> bool
    ensures value { result ≡ beats rules.now pair.now other.now }
{
    let priority = priority_at(rules, pair);
    let other_priority = priority_at(rules, other);
    if precedes(&priority, pair.rule, &other_priority, other.rule) {
        return true;
    }
    pair.rule == other.rule && pair.action < other.action
}
