//! The check of a state.
ghost use Rattle.std.specs.Prelude.{◌≡◌, ◌↔◌, IfOk, IsTrue};
ghost use Rattle.rule_types.specs.Fitting.{FitsRules};
ghost use Rattle.rule_types.specs.Tables.{HoldsTables};
ghost use Rattle.rule_types.specs.WellFormed.{WellFormed};
ghost use Rattle.state_checker.specs.Witnesses.{IsWitness, is_witness as is_its_witness};

use crate::events::has_event;
use crate::fits::fits_rules;
use crate::ranges::is_in_ranges;
use byte_edge::NoMemory;
use curves_series::Tables;
use question_boxes::first_box;
use rule_types::{Rules, State};
use std::alloc::Global;
use verdict_meaning::{Question, Ranges};

/// Whether a state lies in ranges and has the event that a question asks for, where each PID action
/// has the memory 0: a conflict of two rules on a link, an action of a rule that is settled, or a
/// link that is ordered past a limit. The question's rules and the names that they use are read
/// alone, and a state at which one of these names stops has no event. NoMemory is the one error. It
/// takes time by the sizes of the question's rules and of their names, times the logarithm of the
/// number of keys, and for a dead rule by its actions times those of all rules.
pub fn check_state(
    alloc: Global,
    rules: &Rules,
    tables: &Tables,
    question: &Question,
    ranges: &Ranges,
    state: &State,
) -> Result<bool, NoMemory>
    requires formed { WellFormed rules.now }
    requires tables { HoldsTables tables.now rules.now.rules }
    requires fits { FitsRules rules.now state.now }
    ensures exact { IfOk result (λ found. IsTrue found
        ↔ IsWitness rules.now tables.now question.now ranges.now state.now) }
{
    let cell = first_box(alloc, rules, question, ranges)?;
    if !is_in_ranges(rules, &cell, state) {
        return Ok(false);
    }
    has_event(alloc, rules, tables, question, state)
}

/// Whether a state fits the rules, lies in ranges and has the event that a question asks for, where
/// each PID action has the memory 0: as `check_state`, of any state. NoMemory is the one error.
pub fn is_witness(
    alloc: Global,
    rules: &Rules,
    tables: &Tables,
    question: &Question,
    ranges: &Ranges,
    state: &State,
) -> Result<bool, NoMemory>
    requires formed { WellFormed rules.now }
    requires tables { HoldsTables tables.now rules.now.rules }
    ensures value { IfOk result (λ found. found
        ≡ is_its_witness rules.now tables.now question.now ranges.now state.now) }
    ensures exact { IfOk result (λ found. IsTrue found
        ↔ IsWitness rules.now tables.now question.now ranges.now state.now) }
{
    if !fits_rules(rules, state) {
        return Ok(false);
    }
    check_state(alloc, rules, tables, question, ranges, state)
}
