//! What is known of premises in a box.
ghost use Rattle.std.specs.Prelude.{◌≡◌, All, if◌then◌else◌};
ghost use Rattle.rule_types.specs.WellFormed.{ConditionFits, WellFormed};
ghost use Rattle.verdict_meaning.specs.Premises.{both_truth, either_truth, premise_truth_by};
ghost use Rattle.verdict_meaning.specs.Premises.{rule_truth};
ghost use Rattle.verdict_meaning.specs.Truths.{condition_truth};
ghost use Rattle.box_truths.specs.Times.{AreStepTimes, AreTimesOf};

use crate::conditions::condition_truth;
use crate::times::Times;
use list_types::Items;
use rule_types::{Condition, NameDef, Rules};
use verdict_meaning::{Cell, Truth};

/// What is known of the premise of the rule of a number, from 0, at all states of a box. It takes
/// no memory, and time by the conditions of the rule times the keys of the box and the nodes of
/// their expressions (SWMM 5.2 manual, [CONTROLS], premises).
#[tactic(auto, unfolding(verdict_meaning::specs::Premises::rule_truth))]
pub fn rule_truth(rules: &Rules, times: &Times, number: usize, cell: &Cell) -> Truth
    requires formed { WellFormed rules.now }
    requires times { AreTimesOf rules.now times.now }
    ensures value { result ≡ rule_truth rules.now cell.now number }
{
    match rules.rules.get(number) {
        Some(rule) => premise_truth(&rules.names, times, cell, rule.conditions.as_slice()),
        None => premise_truth(&rules.names, times, cell, &[]),
    }
}

/// What is known of a premise over these names: Yes where each of its groups has a condition that
/// is Yes, No where all conditions of some group are No. A condition that is joined by AND begins a
/// group.
pub fn premise_truth(
    names: &Items<NameDef>,
    times: &Times,
    cell: &Cell,
    conditions: &[Condition],
) -> Truth
    requires fit { All (ConditionFits names.now) conditions.now }
    requires times { AreStepTimes times.now }
    ensures value { result ≡ premise_truth_by
        (condition_truth names.now times.now.start times.now.step cell.now) conditions.now }
{
    let Some((first, more)) = conditions.split_first() else {
        return Truth::Yes;
    };
    let mut total = Truth::Yes;
    let mut group = condition_truth(names, times, cell, first);
    let mut rest = more;
    'conditions: while let Some((condition, others)) = rest.split_first() {
        let here = condition_truth(names, times, cell, condition);
        total = groups_closed(condition.joined_by_and, total, group);
        group = group_with(condition.joined_by_and, group, here);
        rest = others;
    }
    both_truth(total, group)
}

/// What is known of the groups that are closed, where a condition begins one or goes on with one.
fn groups_closed(begins: bool, total: Truth, group: Truth) -> Truth
    ensures value { result ≡ (if begins then both_truth total group else total) }
{
    if begins {
        return both_truth(total, group);
    }
    total
}

/// What is known of the group of a condition.
fn group_with(begins: bool, group: Truth, here: Truth) -> Truth
    ensures value { result ≡ (if begins then here else either_truth group here) }
{
    if begins {
        return here;
    }
    either_truth(group, here)
}

/// Both of two.
fn both_truth(a: Truth, b: Truth) -> Truth
    ensures value { result ≡ both_truth a b }
{
    match (a, b) {
        (Truth::Yes, _) => b,
        (Truth::No, _) => Truth::No,
        (Truth::Open, Truth::No) => Truth::No,
        (Truth::Open, _) => Truth::Open,
    }
}

/// Either of two.
fn either_truth(a: Truth, b: Truth) -> Truth
    ensures value { result ≡ either_truth a b }
{
    match (a, b) {
        (Truth::Yes, _) => Truth::Yes,
        (Truth::No, _) => b,
        (Truth::Open, Truth::Yes) => Truth::Yes,
        (Truth::Open, _) => Truth::Open,
    }
}
