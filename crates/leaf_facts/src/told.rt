//! What a box tells of the premises of a question's rules.
ghost use Rattle.std.specs.Prelude.{◌≡◌, ◌<◌, ◌++◌, IfOk, OnOk, length};
ghost use Rattle.rule_types.specs.WellFormed.{WellFormed};
ghost use Rattle.leaf_facts.specs.internal.BoxFacts.{fact_on, facts_in, told_fact};

use box_eval::{is_asked, premise_truth};
use byte_edge::NoMemory;
use curves_series::Tables;
use rule_types::Rules;
use std::alloc::Global;
use verdict_meaning::{Cell, Question, Truth};

/// All facts that a box tells of a question's rules, in the order of the file. NoMemory is the one
/// error.
#[tactic(auto, unfolding(crate::specs::internal::BoxFacts::facts_in))]
pub(crate) fn facts_in(
    alloc: Global,
    rules: &Rules,
    tables: &Tables,
    question: &Question,
    cell: &Cell,
) -> Result<Vec<(u32, bool)>, NoMemory>
    requires formed { WellFormed rules.now }
    ensures value { IfOk result (λ facts.
        facts.items ≡ facts_in rules.now question.now cell.now) }
{
    let mut facts = Vec::new(alloc);
    for number in 0..rules.rules.len() {
        add_fact(&mut facts, rules, tables, question, cell, number)?;
    }
    Ok(facts)
}

/// Adds the fact on a rule, where it is the question's and its premise is known in the box.
#[tactic(auto, unfolding(crate::specs::internal::BoxFacts::fact_on))]
fn add_fact(
    facts: &mut Vec<(u32, bool)>,
    rules: &Rules,
    tables: &Tables,
    question: &Question,
    cell: &Cell,
    number: usize,
) -> Result<(), NoMemory>
    requires formed { WellFormed rules.now }
    requires within { number < length rules.now.rules }
    ensures adds { OnOk result (facts.new.items
        ≡ facts.old.items ++ fact_on rules.now question.now cell.now number) }
{
    if !is_asked(rules, question, number) {
        return Ok(());
    }
    let truth = premise_truth(rules, tables, number as u32, cell)?;
    add_told(facts, number as u32, truth)
}

/// Adds what is known of the premise of a rule.
fn add_told(facts: &mut Vec<(u32, bool)>, number: u32, truth: Truth) -> Result<(), NoMemory>
    ensures adds { OnOk result (facts.new.items ≡ facts.old.items ++ told_fact number truth) }
{
    match truth {
        Truth::Yes => facts.push((number, true))?,
        Truth::No => facts.push((number, false))?,
        Truth::Open => {}
    }
    Ok(())
}
