//! The leaves of certificates.
ghost use Rattle.std.specs.Prelude.{◌≡◌, ◌&&◌, ◌∷◌, nat_lt, length, IfOk};
ghost use Rattle.std.specs.List.{list_all};
ghost use Rattle.rule_types.specs.Tables.{HoldsTables};
ghost use Rattle.rule_types.specs.WellFormed.{WellFormed};
ghost use Rattle.verdict_meaning.specs.declared.cert.Reason.TheVariants.{Facts as facts_reason};
ghost use Rattle.verdict_meaning.specs.Certificates.{facts_fit, facts_hold, is_before_facts, is_fact};
ghost use Rattle.verdict_meaning.specs.Certificates.{is_plain, leaf_cause, leaf_end};
ghost use Rattle.verdict_meaning.specs.Premises.{rule_truth};
ghost use Rattle.verdict_meaning.specs.Questions.{is_asked};
ghost use Rattle.box_truths.specs.Times.{AreTimesOf};
ghost use Rattle.cert_checker.specs.internal.Narrowing.{Judges};

use crate::places::next_place;
use box_eval::{is_asked, shown, shown_by};
use box_truths::{Times, rule_truth, times_of};
use byte_edge::NoMemory;
use curves_series::Tables;
use rule_types::Rules;
use std::alloc::Global;
use verdict_meaning::{Cell, CertCause, CertEnd, Facts, Question, Reason, Truth};

/// A leaf in a box, at a place.
pub(crate) fn check_leaf(
    alloc: Global,
    rules: &Rules,
    tables: &Tables,
    question: &Question,
    cell: &Cell,
    reason: &Reason,
    place: u64,
) -> Result<u64, CertEnd>
    requires formed { WellFormed rules.now }
    requires tables { HoldsTables tables.now rules.now.rules }
    ensures judged { Judges place result
        (leaf_end (leaf_cause rules.now tables.now question.now cell.now reason.now)) }
{
    match leaf_cause(alloc, rules, tables, question, cell, reason) {
        Ok(None) => Ok(next_place(place)),
        Ok(Some(cause)) => Err(CertEnd::Fault { place, cause }),
        Err(_) => Err(CertEnd::NoMemory),
    }
}

/// Why a leaf is not accepted in a box, or None where it is.
#[tactic(auto, unfolding(verdict_meaning::specs::Certificates::leaf_cause))]
fn leaf_cause(
    alloc: Global,
    rules: &Rules,
    tables: &Tables,
    question: &Question,
    cell: &Cell,
    reason: &Reason,
) -> Result<Option<CertCause>, NoMemory>
    requires formed { WellFormed rules.now }
    requires tables { HoldsTables tables.now rules.now.rules }
    ensures value { IfOk result (λ cause.
        cause ≡ leaf_cause rules.now tables.now question.now cell.now reason.now) }
{
    match reason {
        Reason::Whole => {
            if shown(alloc, question, rules, tables, cell)? {
                return Ok(None);
            }
            Ok(Some(CertCause::NotShown))
        }
        Reason::Facts(facts) => facts_cause(alloc, rules, tables, question, cell, facts),
    }
}

/// Why a leaf with facts is not accepted in a box, or None where it is.
#[tactic(auto, unfolding(verdict_meaning::specs::Certificates::leaf_cause))]
fn facts_cause(
    alloc: Global,
    rules: &Rules,
    tables: &Tables,
    question: &Question,
    cell: &Cell,
    facts: &Facts,
) -> Result<Option<CertCause>, NoMemory>
    requires formed { WellFormed rules.now }
    requires tables { HoldsTables tables.now rules.now.rules }
    ensures value { IfOk result (λ cause. cause
        ≡ leaf_cause rules.now tables.now question.now cell.now (facts_reason facts.now)) }
{
    if !facts_fit(rules, question, facts.as_slice()) {
        return Ok(Some(CertCause::Shape));
    }
    if !facts_hold(rules, &times_of(rules), cell, facts.as_slice()) {
        return Ok(Some(CertCause::NotShown));
    }
    if shown_by(alloc, question, rules, tables, cell, facts)? {
        return Ok(None);
    }
    Ok(Some(CertCause::NotShown))
}

/// Whether facts are on rules of a question, strictly rising by number.
#[tactic(auto, unfolding(verdict_meaning::specs::Certificates::facts_fit))]
fn facts_fit(rules: &Rules, question: &Question, facts: &[(u32, bool)]) -> bool
    ensures value { result ≡ facts_fit rules.now question.now facts.now }
{
    let mut rest = facts;
    'facts: while let Some((fact, more)) = rest.split_first() {
        if !fact_fits(rules, question, fact, more) {
            return false;
        }
        rest = more;
    }
    true
}

/// Whether a fact is on a rule of a question, and the next one on a later rule.
fn fact_fits(rules: &Rules, question: &Question, fact: &(u32, bool), more: &[(u32, bool)]) -> bool
    ensures value { result ≡ ((nat_lt fact.now.0 (length rules.now.rules)
        && is_asked rules.now question.now fact.now.0) && is_before_facts fact.now.0 more.now) }
{
    let number = fact.0 as usize;
    ((number < rules.rules.len()) & is_asked(rules, question, number))
        & is_before_facts(fact.0, more)
}

/// Whether the first of some facts, if there is one, is on a rule after this one.
fn is_before_facts(number: u32, facts: &[(u32, bool)]) -> bool
    ensures value { result ≡ is_before_facts number facts.now }
{
    match facts.split_first() {
        Some((fact, _)) => number < fact.0,
        None => true,
    }
}

/// Whether each fact is what is known of that premise in a box.
#[tactic(auto, unfolding(verdict_meaning::specs::Certificates::facts_hold))]
fn facts_hold(rules: &Rules, times: &Times, cell: &Cell, facts: &[(u32, bool)]) -> bool
    requires formed { WellFormed rules.now }
    requires times { AreTimesOf rules.now times.now }
    ensures value { result ≡ facts_hold rules.now cell.now facts.now }
{
    let mut rest = facts;
    'facts: while let Some((fact, more)) = rest.split_first() {
        if !is_fact(fact.1, rule_truth(rules, times, fact.0 as usize, cell)) {
            return false;
        }
        rest = more;
    }
    true
}

/// Whether a fact is what is known of a premise.
fn is_fact(holds: bool, truth: Truth) -> bool
    ensures value { result ≡ is_fact holds truth }
{
    match (holds, truth) {
        (true, Truth::Yes) => true,
        (false, Truth::No) => true,
        _ => false,
    }
}

/// Whether a reason is without facts.
pub(crate) fn is_plain(reason: &Reason) -> bool
    ensures value { result ≡ is_plain reason.now }
{
    match reason {
        Reason::Whole => true,
        Reason::Facts(facts) => facts.as_slice().split_first().is_none(),
    }
}
