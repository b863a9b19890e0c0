//! The first of the pairs on each link.
ghost use Rattle.std.specs.Prelude.{◌≡◌, ◌∷◌, [], ◌++◌, List, None, length, replicate, IfOk};
ghost use Rattle.std.specs.List.{flat_map};
ghost use Rattle.std.specs.List.Sorted.{IsStrictlyIncreasing};
ghost use Rattle.rule_types.specs.WellFormed.{InOrder};
ghost use Rattle.rule_types.specs.declared.action.ActionAt.{ActionAt};
ghost use Rattle.rule_meaning.specs.Settled.{settled, as_list};
ghost use Rattle.priority_settle.specs.internal.Firsts.{first_of};
ghost use Rattle.priority_settle.specs.Settling.{settled_each};

use crate::pairs::{goes_before, link_at};
use byte_edge::NoMemory;
use rule_types::{ActionAt, Rule, Rules};
use std::alloc::Global;

/// The settled ones of the pairs that rules list: for each controlled link, in link order, the pair
/// on it that no other listed pair on it goes before, if any pair is on it. A pair goes before
/// another where its rule has the greater priority, no priority being below every number, or the
/// same rank and the earlier place in the file, or where it is earlier in the same branch (SWMM 5.2
/// manual, [CONTROLS], PRIORITY; the manual leaves equal ranks open). A pair that names no action
/// of the rules is on no link. Rules never list both branches of one of them; of a list that has
/// both, branches do not count, and of two pairs at one place the earlier in the list is settled.
/// NoMemory is the one error. It takes time by the number of listed pairs times the logarithm of
/// the number of controlled links, and by the number of these; and memory by the number of
/// controlled links.
pub fn settle(alloc: Global, rules: &Rules, listed: &[ActionAt]) -> Result<Vec<ActionAt>, NoMemory>
    requires in_order { InOrder rules.now }
    ensures pairs { IfOk result (λ pairs.
        pairs.items ≡ settled rules.now.rules rules.now.controlled listed.now) }
{
    let mut firsts = vec![in alloc; None; rules.controlled.len()]?;
    settle_into(rules, listed, &mut firsts);
    held_pairs(alloc, &firsts)
}

/// The same, link by link: writes for each controlled link, in link order, the pair that is settled
/// for it, or None where no listed pair is on it, whatever the places held before. It takes no
/// memory, and time as `settle` does.
pub fn settle_into(rules: &Rules, listed: &[ActionAt], firsts: &mut [Option<ActionAt>])
    requires in_order { InOrder rules.now }
    requires each { length firsts.old ≡ length rules.now.controlled }
    ensures settled { firsts.new
        ≡ settled_each rules.now.rules rules.now.controlled listed.now }
{
    clear(firsts);
    let links = rules.controlled.as_slice();
    for at in listed {
        add_pair(rules.rules.as_slice(), links, firsts, at);
    }
}

/// Writes None at each place.
fn clear(firsts: &mut [Option<ActionAt>])
    ensures { firsts.new ≡ replicate (length firsts.old) None }
{
    firsts.fill(None);
}

/// Enters one more pair in a table that has for each link the pair that is settled for it.
fn add_pair(rules: &[Rule], links: &[u32], firsts: &mut [Option<ActionAt>], at: &ActionAt)
    requires rising { IsStrictlyIncreasing links.now }
    requires each { length firsts.old ≡ length links.now }
    ensures settled { (pairs : List ActionAt) → firsts.old ≡ settled_each rules.now links.now pairs
        → firsts.new ≡ settled_each rules.now links.now (pairs ++ at.now ∷ []) }
{
    let Some(link) = link_at(rules, at) else {
        return;
    };
    let Ok(place) = links.binary_search(&link) else {
        return;
    };
    firsts[place] = Some(first_of(rules, firsts[place], at));
}

/// The pair that goes first, of the one that is held, if any, and a new one.
fn first_of(rules: &[Rule], held: Option<ActionAt>, at: &ActionAt) -> ActionAt
    ensures value { result ≡ first_of rules.now held at.now }
{
    match held {
        None => *at,
        Some(first) => {
            if goes_before(rules, at, &first) {
                *at
            } else {
                first
            }
        }
    }
}

/// The pairs of a table, in its order.
fn held_pairs(alloc: Global, firsts: &[Option<ActionAt>]) -> Result<Vec<ActionAt>, NoMemory>
    ensures value { IfOk result (λ pairs. pairs.items ≡ flat_map as_list firsts.now) }
{
    let mut pairs = Vec::new(alloc);
    for held in firsts {
        if let Some(first) = held {
            pairs.push(*first)?;
        }
    }
    Ok(pairs)
}
