//! Whether a link is ordered past a limit.
ghost use Rattle.std.specs.Prelude.{◌≡◌, IfOk, IsTrue, Some};
ghost use Rattle.rule_types.specs.Fitting.{FitsRules};
ghost use Rattle.rule_types.specs.Tables.{HoldsTables};
ghost use Rattle.rule_types.specs.WellFormed.{WellFormed};
ghost use Rattle.rule_meaning.specs.State.{link_state};
ghost use Rattle.verdict_meaning.specs.Events.{is_outside, is_past, leads_outside, stands_within};
ghost use Rattle.verdict_meaning.specs.Grids.{sample_memory};
ghost use Rattle.verdict_meaning.specs.Hulls.{closed};
ghost use Rattle.verdict_meaning.specs.Questions.{asked_numbers, is_asked};
ghost use Rattle.state_checker.specs.internal.Readings.{IsReading};

use crate::links::link_state;
use crate::lists::listed_pairs;
use crate::settled::{settled_on, settled_pairs};
use crate::worth::pair_worth;
use byte_edge::NoMemory;
use curves_series::Tables;
use exact_fraction::error::Overflow;
use exact_fraction::frac::Frac;
use interval_sets::{Bound, Interval};
use premise_eval::Values;
use rule_types::{ActionAt, Rules, State};
use std::alloc::Global;
use verdict_meaning::Question;

/// Whether the setting and the target of a link lie from one number to another, and the link is
/// settled with a value that does not.
#[tactic(auto, unfolding(verdict_meaning::specs::Events::is_past))]
pub(crate) fn is_past(
    alloc: Global,
    rules: &Rules,
    tables: &Tables,
    question: &Question,
    state: &State,
    values: &Values,
    link: u32,
    lo: &Frac,
    hi: &Frac,
) -> Result<bool, NoMemory>
    requires reading { IsReading rules.now question.now state.now values.now }
    requires tables { HoldsTables tables.now rules.now.rules }
    ensures value { IfOk result (λ past. past ≡ is_past rules.now tables.now sample_memory
        state.now (asked_numbers rules.now question.now) link lo.now hi.now) }
{
    if !stands_within(rules, state, link, lo, hi) {
        return Ok(false);
    }
    let listed = listed_pairs(alloc, rules, question, state, values)?;
    let firsts = settled_pairs(alloc, rules, listed.as_slice())?;
    match settled_on(rules, firsts.as_slice(), link) {
        Some(at) => Ok(leads_outside(rules, tables, question, state, values, &at, lo, hi)),
        None => Ok(false),
    }
}

/// Whether the setting and the target of a link lie from one number to another.
fn stands_within(rules: &Rules, state: &State, link: u32, lo: &Frac, hi: &Frac) -> bool
    requires formed { WellFormed rules.now }
    requires fits { FitsRules rules.now state.now }
    ensures value { result
        ≡ stands_within lo.now hi.now (link_state rules.now state.now link) }
{
    match link_state(rules, state, link) {
        Some(found) => {
            closed(lo, hi).holds(&found.setting) & closed(lo, hi).holds(&found.target)
        }
        None => false,
    }
}

/// Whether the action at a place, whose rule is the question's, gives a value that does not lie from
/// one number to another.
fn leads_outside(
    rules: &Rules,
    tables: &Tables,
    question: &Question,
    state: &State,
    values: &Values,
    at: &ActionAt,
    lo: &Frac,
    hi: &Frac,
) -> bool
    requires reading { IsReading rules.now question.now state.now values.now }
    requires tables { HoldsTables tables.now rules.now.rules }
    requires asked { IsTrue (is_asked rules.now question.now at.now.rule) }
    ensures value { result ≡ leads_outside rules.now tables.now sample_memory state.now lo.now
        hi.now (Some at.now) }
{
    is_outside(
        lo,
        hi,
        pair_worth(rules, tables, question, state, values, at),
    )
}

/// Whether a value does not lie from one number to another.
fn is_outside(lo: &Frac, hi: &Frac, value: Result<Frac, Overflow>) -> bool
    ensures value { result ≡ is_outside lo.now hi.now value }
{
    match value {
        Ok(q) => !closed(lo, hi).holds(&q),
        Err(_) => false,
    }
}

/// The interval from one number to another, with both.
fn closed(lo: &Frac, hi: &Frac) -> Interval
    ensures value { result ≡ closed lo.now hi.now }
{
    Interval {
        low: Bound::Bound(*lo, false),
        high: Bound::Bound(*hi, false),
    }
}
