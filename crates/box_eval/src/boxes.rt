//! Which boxes are shown for a question.
ghost use Rattle.std.specs.Prelude.{◌≡◌, true, IfOk, Ok};
ghost use Rattle.rule_types.specs.Tables.{HoldsTables};
ghost use Rattle.rule_types.specs.WellFormed.{WellFormed};
ghost use Rattle.verdict_meaning.specs.Certificates.{facts_fit};
ghost use Rattle.verdict_meaning.specs.Premises.{rule_truth};
ghost use Rattle.verdict_meaning.specs.Shown.{shown as is_shown, shown_by as is_shown_by};
ghost use Rattle.verdict_meaning.specs.Shown.{shown_with};
ghost use Rattle.box_truths.specs.Times.{AreTimesOf};
ghost use Rattle.box_eval.specs.internal.Known.{known_of};

use crate::actions::Limit;
use crate::conflict::conflict_shown;
use crate::dead::dead_shown;
use crate::limit::limit_shown;
use crate::truths::{truths_by, truths_in};
use box_truths::{Times, rule_truth, times_of};
use byte_edge::NoMemory;
use curves_series::Tables;
use rule_types::Rules;
use std::alloc::Global;
use verdict_meaning::{Cell, Facts, Question, Truth};

/// Whether a box is shown for a question: what the box tells of the premises of the question's
/// rules excludes the event at all of its states. NoMemory is the one error. It takes memory by the
/// number of rules, and time by the conditions of the question's rules and the actions of all.
pub fn shown(
    alloc: Global,
    question: &Question,
    rules: &Rules,
    tables: &Tables,
    cell: &Cell,
) -> Result<bool, NoMemory>
    requires formed { WellFormed rules.now }
    requires tables { HoldsTables tables.now rules.now.rules }
    ensures value { IfOk result (λ b.
        b ≡ is_shown rules.now tables.now question.now cell.now) }
{
    let times = times_of(rules);
    let truths = truths_in(alloc, rules, &times, question, cell)?;
    Ok(shown_with(rules, &times, tables, cell, truths.as_slice(), question))
}

/// Whether a box is shown for a question by facts alone, where nothing is known of all premises
/// without a fact. The facts are on rules of the question, strictly rising by number. NoMemory is
/// the one error. It takes memory by the number of rules, and time by the actions of all.
pub fn shown_by(
    alloc: Global,
    question: &Question,
    rules: &Rules,
    tables: &Tables,
    cell: &Cell,
    facts: &Facts,
) -> Result<bool, NoMemory>
    requires formed { WellFormed rules.now }
    requires tables { HoldsTables tables.now rules.now.rules }
    requires fit { facts_fit rules.now question.now facts.now ≡ true }
    ensures value { IfOk result (λ b.
        b ≡ is_shown_by rules.now tables.now question.now cell.now facts.now) }
{
    let times = times_of(rules);
    let truths = truths_by(alloc, rules, facts.as_slice())?;
    Ok(shown_with(rules, &times, tables, cell, truths.as_slice(), question))
}

/// What is known of the premise of the rule of a number, from 0, at all states of a box: Yes where
/// it holds at each by the hulls of its sides, No where it holds at none, else Open. It takes no
/// memory.
pub fn premise_truth(
    rules: &Rules,
    _tables: &Tables,
    rule: u32,
    cell: &Cell,
) -> Result<Truth, NoMemory>
    requires formed { WellFormed rules.now }
    ensures value { result ≡ Ok (rule_truth rules.now cell.now rule) }
{
    let times = times_of(rules);
    Ok(rule_truth(rules, &times, rule as usize, cell))
}

/// Whether a box is shown for a question by what is known of the premises of all rules.
#[tactic(auto, unfolding(verdict_meaning::specs::Shown::shown_with))]
fn shown_with(
    rules: &Rules,
    times: &Times,
    tables: &Tables,
    cell: &Cell,
    truths: &[Truth],
    question: &Question,
) -> bool
    requires formed { WellFormed rules.now }
    requires times { AreTimesOf rules.now times.now }
    requires tables { HoldsTables tables.now rules.now.rules }
    ensures value { result
        ≡ shown_with rules.now tables.now cell.now (known_of truths.now) question.now }
{
    match question {
        Question::Conflict(first, second, link) => {
            conflict_shown(rules, truths, *first as usize, *second as usize, *link)
        }
        Question::Dead(number) => dead_shown(rules, truths, *number as usize),
        Question::Limit(link, lo, hi) => {
            let limit = Limit {
                link: *link,
                lo: *lo,
                hi: *hi,
            };
            limit_shown(rules, times, tables, cell, truths, &limit)
        }
    }
}
