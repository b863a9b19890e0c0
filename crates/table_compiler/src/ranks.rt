//! Rules by rank.
ghost use Rattle.std.specs.Prelude.{◌≡◌, ◌<◌, ◌^◌, length, slice_get, IfOk};
ghost use Rattle.std.specs.List.{range_with_len};
ghost use Rattle.std.specs.Ordering.{is_lt};
ghost use Rattle.rule_types.specs.Ranks.{precedes as comes_before, outranks as ranks_above};
ghost use Rattle.rule_meaning.specs.Settled.{rule_priority};
ghost use Rattle.table_compiler.specs.Rows.{rule_precedes, ranked as ranked_rules};

use byte_edge::NoMemory;
use exact_fraction::frac::Frac;
use exact_fraction::relation::Relation;
use rule_types::Rule;
use std::alloc::Global;
use std::cmp::Ordering;

/// The places of the rules, by falling rank, and of one rank in the order of the file. NoMemory is
/// the one error. It takes time by the number of rules times its logarithm.
pub(crate) fn ranked(alloc: Global, rules: &[Rule]) -> Result<Vec<u32>, NoMemory>
    requires counted { length rules.now < 2 ^ 32 }
    ensures { IfOk result (λ places. places.items ≡ ranked_rules rules.now) }
{
    let mut places = all_places(alloc, rules.len())?;
    places.sort_by(|place, other| rank_order(rules, *place, *other))?;
    Ok(places)
}

/// The numbers below a count.
fn all_places(alloc: Global, count: usize) -> Result<Vec<u32>, NoMemory>
    requires counted { count < 2 ^ 32 }
    ensures { IfOk result (λ places. places.items ≡ range_with_len 0 count) }
{
    let mut places = Vec::new(alloc);
    for place in 0..count {
        places.push(place as u32)?;
    }
    Ok(places)
}

/// How the rule at a place stands to the rule at another.
fn rank_order(rules: &[Rule], place: u32, other: u32) -> Ordering
    ensures { is_lt result ≡ rule_precedes rules.now place other }
{
    if precedes(rules, place, other) {
        return Ordering::Less;
    }
    Ordering::Greater
}

/// Whether the rule at a place precedes the rule at another.
#[tactic(auto, unfolding(crate::specs::Rows::rule_precedes))]
fn precedes(rules: &[Rule], place: u32, other: u32) -> bool
    ensures { result ≡ rule_precedes rules.now place other }
{
    let priority = priority_at(rules, place);
    let other_priority = priority_at(rules, other);
    if outranks(&priority, &other_priority) {
        return true;
    }
    if outranks(&other_priority, &priority) {
        return false;
    }
    place < other
}

/// The priority of the rule at a place.
fn priority_at(rules: &[Rule], place: u32) -> Option<Frac>
    ensures { result ≡ rule_priority (slice_get rules.now place) }
{
    let rule = rules.get(place as usize)?;
    rule.priority
}

/// Whether a priority ranks above another: no priority ranks below every number.
fn outranks(priority: &Option<Frac>, other: &Option<Frac>) -> bool
    ensures { result ≡ ranks_above priority.now other.now }
{
    match (priority, other) {
        (Some(number), Some(held)) => Relation::Lt.holds(held, number),
        (Some(_), None) => true,
        (None, _) => false,
    }
}
