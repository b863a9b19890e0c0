//! Whether two actions on one link agree.
ghost use Rattle.std.specs.Prelude.{◌≡◌, option_copied, slice_get};
ghost use Rattle.exact_fraction.specs.Order.{same};
ghost use Rattle.rule_types.specs.WellFormed.{WellFormed};
ghost use Rattle.rule_meaning.specs.Worth.{last_of, rate_of};
ghost use Rattle.verdict_meaning.specs.Events.{agree, both_disagree, disagree, number_worth};
ghost use Rattle.verdict_meaning.specs.Events.{same_controller, same_last, same_side};
ghost use Rattle.verdict_meaning.specs.Premises.{conditions_of};

use crate::candidates::candidate;
use crate::links::rate_of;
use box_truths::side_of;
use exact_fraction::frac::Frac;
use exact_fraction::relation::Relation;
use list_types::Items;
use rule_types::{Branch, Condition, NameDef, Rules, Side, What};

/// A branch of the rule of a number, from 0.
#[derive(Clone, Copy, Debug)]
pub struct BranchAt {
    pub number: usize,
    pub branch: Branch,
}

/// Whether two branches have candidates on a link that disagree: each has an action there, and their
/// first ones are not numbers of one worth, the same curve with the same controller, or the same
/// series. It takes no memory, and time by the actions of the two branches.
#[tactic(auto, unfolding(verdict_meaning::specs::Events::disagree))]
pub fn disagree(rules: &Rules, at: &BranchAt, other: &BranchAt, link: u32) -> bool
    requires formed { WellFormed rules.now }
    ensures value { result
        ≡ disagree rules.now at.now.number at.now.branch other.now.number other.now.branch link }
{
    let Some(action) = candidate(rules, at.number, at.branch, link) else {
        return false;
    };
    let Some(second) = candidate(rules, other.number, other.branch, link) else {
        return false;
    };
    let conditions = conditions_of(rules, at.number);
    let others = conditions_of(rules, other.number);
    !agree(rules, link, conditions, others, &action.what, &second.what)
}

/// The conditions of the rule of a number; there are none without such a rule.
pub(crate) fn conditions_of(rules: &Rules, number: usize) -> &[Condition]
    ensures value { result.now ≡ conditions_of (slice_get rules.now.rules number) }
{
    match rules.rules.get(number) {
        Some(rule) => rule.conditions.as_slice(),
        None => &[],
    }
}

/// Whether two actions of rules with these conditions on a link agree: they are numbers of one
/// worth there, the same curve with the same controller, or the same series.
#[tactic(auto, unfolding(verdict_meaning::specs::Events::agree))]
fn agree(
    rules: &Rules,
    link: u32,
    conditions: &[Condition],
    others: &[Condition],
    first: &What,
    second: &What,
) -> bool
    requires formed { WellFormed rules.now }
    ensures value { result ≡ agree rules.now.names (rate_of rules.now link) conditions.now
        others.now first.now second.now }
{
    match (first, second) {
        (What::Constant(p), What::Constant(q)) => same_worth(&rate_of(rules, link), p, q),
        (What::Curve(curve), What::Curve(other)) => {
            (curve.index == other.index) & same_controller(&rules.names, conditions, others)
        }
        (What::Series(series), What::Series(other)) => series.index == other.index,
        _ => false,
    }
}

/// Whether two numbers are worth the same on a link with this rate.
fn same_worth(rate: &Frac, p: &Frac, q: &Frac) -> bool
    ensures value { result ≡ same (number_worth rate.now p.now) (number_worth rate.now q.now) }
{
    let first = number_worth(rate, p);
    let second = number_worth(rate, q);
    Relation::Eq.holds(&first, &second)
}

/// What a number is worth on a link with this rate: at most 1 where it has one.
fn number_worth(rate: &Frac, q: &Frac) -> Frac
    ensures value { result ≡ number_worth rate.now q.now }
{
    if Frac::zero().is_less(rate) {
        return Frac::one().min(*q);
    }
    *q
}

/// Whether the left sides of the last conditions are one side.
#[tactic(auto, unfolding(verdict_meaning::specs::Events::same_controller))]
fn same_controller(names: &Items<NameDef>, conditions: &[Condition], others: &[Condition]) -> bool
    ensures value { result ≡ same_controller names.now conditions.now others.now }
{
    let Some(last) = last_of(conditions) else {
        return false;
    };
    let Some(other) = last_of(others) else {
        return false;
    };
    same_side(&side_of(names, &last.left), &side_of(names, &other.left))
}

/// The last condition, if there is one.
pub(crate) fn last_of(conditions: &[Condition]) -> Option<&Condition>
    ensures value { option_copied result ≡ last_of conditions.now }
{
    conditions.last()
}

/// Whether two sides are one.
fn same_side(first: &Side, second: &Side) -> bool
    ensures value { result ≡ same_side first.now second.now }
{
    match (first, second) {
        (Side::Key(a), Side::Key(b)) => *a == *b,
        (Side::Expr(m), Side::Expr(n)) => *m == *n,
        _ => false,
    }
}
