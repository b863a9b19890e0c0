//! Whether a state has the event that a question asks for.
ghost use Rattle.std.specs.Prelude.{◌≡◌, IfOk, IsTrue, Some, slice_get};
ghost use Rattle.rule_types.specs.Fitting.{FitsRules};
ghost use Rattle.rule_types.specs.Tables.{HoldsTables};
ghost use Rattle.rule_types.specs.WellFormed.{WellFormed};
ghost use Rattle.verdict_meaning.specs.Events.{has_event, has_event_by, is_alive, is_conflict};
ghost use Rattle.verdict_meaning.specs.Grids.{sample_memory};
ghost use Rattle.verdict_meaning.specs.Questions.{asked_numbers, is_asked};
ghost use Rattle.state_checker.specs.internal.Readings.{IsReading};

use crate::asked::asked_numbers;
use crate::limits::is_past;
use crate::lists::{branch_at, listed_pairs};
use crate::settled::{is_alive, settled_pairs};
use box_eval::{BranchAt, are_level, disagree};
use byte_edge::NoMemory;
use curves_series::Tables;
use premise_eval::{Values, derive_for};
use rule_types::{Rules, State};
use std::alloc::Global;
use verdict_meaning::Question;

/// Whether a state that fits the rules has a question's event, where each PID action has the memory
/// 0. A state at which a name stops that the question's rules use has no event. NoMemory is the one
/// error.
#[tactic(auto, unfolding(verdict_meaning::specs::Events::has_event))]
pub fn has_event(
    alloc: Global,
    rules: &Rules,
    tables: &Tables,
    question: &Question,
    state: &State,
) -> Result<bool, NoMemory>
    requires formed { WellFormed rules.now }
    requires tables { HoldsTables tables.now rules.now.rules }
    requires fits { FitsRules rules.now state.now }
    ensures value { IfOk result (λ found. found
        ≡ has_event rules.now tables.now sample_memory state.now question.now) }
{
    let numbers = asked_numbers(alloc, rules, question)?;
    let mut values = Values::new(alloc, rules)?;
    match derive_for(rules, numbers.as_slice(), state, &mut values) {
        Ok(()) => event_holds(alloc, rules, tables, question, state, &values),
        Err(_) => Ok(false),
    }
}

/// The same at a state at which none of these names stops.
#[tactic(auto, unfolding(verdict_meaning::specs::Events::has_event_by, verdict_meaning::specs::Questions::is_asked),)]
fn event_holds(
    alloc: Global,
    rules: &Rules,
    tables: &Tables,
    question: &Question,
    state: &State,
    values: &Values,
) -> Result<bool, NoMemory>
    requires reading { IsReading rules.now question.now state.now values.now }
    requires tables { HoldsTables tables.now rules.now.rules }
    ensures value { IfOk result (λ found. found
        ≡ has_event_by rules.now tables.now sample_memory state.now question.now) }
{
    match question {
        Question::Conflict(first, second, link) => {
            let first = *first as usize;
            let second = *second as usize;
            Ok(is_conflict(rules, question, state, values, first, second, *link))
        }
        Question::Dead(number) => rule_is_alive(alloc, rules, question, state, values, *number),
        Question::Limit(link, lo, hi) => {
            is_past(alloc, rules, tables, question, state, values, *link, lo, hi)
        }
    }
}

/// Whether two rules of a question have the same rank, and the branches that they list have
/// candidates on a link that disagree.
#[tactic(auto, unfolding(verdict_meaning::specs::Events::is_conflict))]
fn is_conflict(
    rules: &Rules,
    question: &Question,
    state: &State,
    values: &Values,
    first: usize,
    second: usize,
    link: u32,
) -> bool
    requires reading { IsReading rules.now question.now state.now values.now }
    requires first { IsTrue (is_asked rules.now question.now first) }
    requires second { IsTrue (is_asked rules.now question.now second) }
    ensures value { result ≡ is_conflict rules.now state.now first second link }
{
    if !are_level(rules, first, second) {
        return false;
    }
    let at = BranchAt {
        number: first,
        branch: branch_at(rules, question, state, values, first),
    };
    let other = BranchAt {
        number: second,
        branch: branch_at(rules, question, state, values, second),
    };
    disagree(rules, &at, &other, link)
}

/// Whether some action of a rule is settled, where the question's rules are read alone.
#[tactic(auto, unfolding(verdict_meaning::specs::Events::is_alive))]
fn rule_is_alive(
    alloc: Global,
    rules: &Rules,
    question: &Question,
    state: &State,
    values: &Values,
    number: u32,
) -> Result<bool, NoMemory>
    requires reading { IsReading rules.now question.now state.now values.now }
    ensures value { IfOk result (λ found. found
        ≡ is_alive rules.now state.now (asked_numbers rules.now question.now) number) }
{
    let listed = listed_pairs(alloc, rules, question, state, values)?;
    let firsts = settled_pairs(alloc, rules, listed.as_slice())?;
    Ok(is_alive(rules, firsts.as_slice(), number))
}
