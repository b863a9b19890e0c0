//! Which of the listed pairs are settled on links.
ghost use Rattle.std.specs.Prelude.{◌≡◌, List, Option, IfOk, slice_get};
ghost use Rattle.std.specs.List.{list_any};
ghost use Rattle.rule_types.specs.WellFormed.{WellFormed};
ghost use Rattle.rule_types.specs.declared.action.ActionAt.{ActionAt as AnyPair};
ghost use Rattle.rule_meaning.specs.Settled.{settled_on};
ghost use Rattle.priority_settle.specs.Settling.{settled_each};
ghost use Rattle.verdict_meaning.specs.Events.{actions_of, is_pair_of};

use byte_edge::NoMemory;
use premise_eval::link_at;
use priority_settle::settle_into;
use rule_types::{Action, ActionAt, Rules};
use std::alloc::Global;

/// The pairs of a list that are settled, for each controlled link the one on it or None.
pub(crate) fn settled_pairs(
    alloc: Global,
    rules: &Rules,
    listed: &[ActionAt],
) -> Result<Vec<Option<ActionAt>>, NoMemory>
    requires formed { WellFormed rules.now }
    ensures settled { IfOk result (λ firsts. firsts.items
        ≡ settled_each rules.now.rules rules.now.controlled listed.now) }
{
    let mut firsts = vec![in alloc; None; rules.controlled.len()]?;
    settle_into(rules, listed, &mut firsts);
    Ok(firsts)
}

/// The pair that is settled on a link, if there is one.
pub(crate) fn settled_on(rules: &Rules, firsts: &[Option<ActionAt>], link: u32) -> Option<ActionAt>
    requires formed { WellFormed rules.now }
    ensures value { (pairs : List AnyPair)
        → firsts.now ≡ settled_each rules.now.rules rules.now.controlled pairs
        → result ≡ settled_on rules.now.rules pairs link }
{
    match link_at(rules.controlled.as_slice(), link) {
        Some(at) => pair_at(firsts, at),
        None => None,
    }
}

/// The pair at a place, if there is one.
fn pair_at(firsts: &[Option<ActionAt>], at: usize) -> Option<ActionAt>
    ensures value { (pair : Option AnyPair) → slice_get firsts.now at ≡ Some pair
        → result ≡ pair }
{
    match firsts.get(at) {
        Some(first) => *first,
        None => None,
    }
}

/// Whether an action of a rule is settled.
pub(crate) fn is_alive(rules: &Rules, firsts: &[Option<ActionAt>], number: u32) -> bool
    requires formed { WellFormed rules.now }
    ensures value { (pairs : List AnyPair)
        → firsts.now ≡ settled_each rules.now.rules rules.now.controlled pairs
        → result ≡ list_any
        (λ action. is_pair_of number (settled_on rules.now.rules pairs action.link))
        (actions_of (slice_get rules.now.rules number)) }
{
    match rules.rules.get(number as usize) {
        Some(rule) => {
            some_settled(rules, firsts, number, rule.then_actions.as_slice())
                | some_settled(rules, firsts, number, rule.else_actions.as_slice())
        }
        None => false,
    }
}

/// Whether on the link of some of these actions a pair of a rule is settled.
fn some_settled(rules: &Rules, firsts: &[Option<ActionAt>], number: u32, actions: &[Action]) -> bool
    requires formed { WellFormed rules.now }
    ensures value { (pairs : List AnyPair)
        → firsts.now ≡ settled_each rules.now.rules rules.now.controlled pairs
        → result ≡ list_any
        (λ action. is_pair_of number (settled_on rules.now.rules pairs action.link)) actions.now }
{
    let mut rest = actions;
    'actions: while let Some((action, more)) = rest.split_first() {
        if is_pair_of(number, &settled_on(rules, firsts, action.link)) {
            return true;
        }
        rest = more;
    }
    false
}

/// Whether a pair is one of a rule.
fn is_pair_of(number: u32, pair: &Option<ActionAt>) -> bool
    ensures value { result ≡ is_pair_of number pair.now }
{
    match pair {
        Some(at) => at.rule == number,
        None => false,
    }
}
