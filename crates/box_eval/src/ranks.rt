//! Which rules precede others (SWMM 5.2 manual, [CONTROLS], PRIORITY).
ghost use Rattle.std.specs.Prelude.{◌≡◌, ℕ, ◌&&◌, ◌||◌};
ghost use Rattle.rule_types.specs.Ranks.{outranks, precedes, same_rank};
ghost use Rattle.verdict_meaning.specs.Events.{are_level, priority_of};
ghost use Rattle.verdict_meaning.specs.Shown.{rule_precedes, surely_acts};
ghost use Rattle.box_eval.specs.internal.Known.{known_of};
ghost use Rattle.box_eval.specs.internal.Preceding.{IsFirstActing, comes_after};

use crate::candidates::surely_acts;
use exact_fraction::frac::Frac;
use rule_types::Rules;
use verdict_meaning::Truth;

/// Whether a priority ranks above another.
fn outranks(priority: &Option<Frac>, other: &Option<Frac>) -> bool
    ensures value { result ≡ outranks priority.now other.now }
{
    match (priority, other) {
        (Some(p), Some(q)) => q.is_less(p),
        (Some(_), None) => true,
        (None, _) => false,
    }
}

/// Whether two priorities have the same rank.
fn same_rank(priority: &Option<Frac>, other: &Option<Frac>) -> bool
    ensures value { result ≡ same_rank priority.now other.now }
{
    !outranks(priority, other) & !outranks(other, priority)
}

/// Whether the rule at a place, of a priority, precedes another rule.
fn precedes(priority: &Option<Frac>, place: usize, other: &Option<Frac>, other_place: usize) -> bool
    ensures value { result ≡ precedes priority.now place other.now other_place }
{
    outranks(priority, other) | (same_rank(priority, other) & (place < other_place))
}

/// The priority of a rule, if it has one.
fn priority_of(rules: &Rules, number: usize) -> Option<Frac>
    ensures value { result ≡ priority_of rules.now.rules number }
{
    match rules.rules.get(number) {
        Some(rule) => rule.priority,
        None => None,
    }
}

/// Whether the rules of two numbers, from 0, have the same rank: neither has the greater priority,
/// no priority being below every number (SWMM 5.2 manual, [CONTROLS], PRIORITY). It takes no memory,
/// and the same time for all rules.
#[tactic(auto, unfolding(verdict_meaning::specs::Events::are_level))]
pub fn are_level(rules: &Rules, first: usize, second: usize) -> bool
    ensures value { result ≡ are_level rules.now.rules first second }
{
    let priority = priority_of(rules, first);
    let other = priority_of(rules, second);
    same_rank(&priority, &other)
}

/// Whether a rule precedes another.
#[tactic(auto, unfolding(verdict_meaning::specs::Shown::rule_precedes))]
fn rule_precedes(rules: &Rules, number: usize, other: usize) -> bool
    ensures value { result ≡ rule_precedes rules.now number other }
{
    let priority = priority_of(rules, number);
    let other_priority = priority_of(rules, other);
    precedes(&priority, number, &other_priority, other)
}

/// Whether a rule comes after a first one, if there is one.
pub(crate) fn comes_after(rules: &Rules, first: &Option<usize>, number: usize) -> bool
    ensures value { result ≡ comes_after rules.now first.now number }
{
    match first {
        Some(first) => rule_precedes(rules, *first, number),
        None => false,
    }
}

/// The rule that precedes all others that surely act on a link, if one does. It takes time by the
/// number of actions of the rules.
pub(crate) fn first_acting(rules: &Rules, truths: &[Truth], link: u32) -> Option<usize>
    ensures first { IsFirstActing rules.now (known_of truths.now) link result }
{
    let mut first = None;
    for number in 0..rules.rules.len() {
        first = first_with(rules, truths, link, first, number);
    }
    first
}

/// The same with one more rule.
fn first_with(
    rules: &Rules,
    truths: &[Truth],
    link: u32,
    first: Option<usize>,
    number: usize,
) -> Option<usize>
    ensures each { (other : ℕ) → comes_after rules.now result other
        ≡ (comes_after rules.now first other || (rule_precedes rules.now number other
        && surely_acts rules.now (known_of truths.now) number link)) }
{
    if !surely_acts(rules, truths, number, link) {
        return first;
    }
    earlier_of(rules, first, number)
}

/// The one of a first rule, if there is one, and another that precedes.
fn earlier_of(rules: &Rules, first: Option<usize>, number: usize) -> Option<usize>
    ensures each { (other : ℕ) → comes_after rules.now result other
        ≡ (comes_after rules.now first other || rule_precedes rules.now number other) }
{
    match first {
        None => Some(number),
        Some(before) => {
            if rule_precedes(rules, number, before) {
                return Some(number);
            }
            Some(before)
        }
    }
}
