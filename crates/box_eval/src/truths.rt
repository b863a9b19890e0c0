//! What is known of the premises of all rules, in their order.
ghost use Rattle.std.specs.Prelude.{◌≡◌, map, IfOk, length, replicate};
ghost use Rattle.rule_types.specs.WellFormed.{WellFormed};
ghost use Rattle.verdict_meaning.specs.Questions.{all_numbers};
ghost use Rattle.verdict_meaning.specs.declared.truth.Truth.TheVariants.{Open};
ghost use Rattle.box_truths.specs.Times.{AreTimesOf};
ghost use Rattle.box_eval.specs.internal.Known.{AreToldWith, AreTruthsBy, asked_truth};
ghost use Rattle.box_eval.specs.internal.Known.{truth_of_fact};

use crate::asked::is_asked;
use box_truths::{Times, rule_truth};
use byte_edge::NoMemory;
use rule_types::Rules;
use std::alloc::Global;
use verdict_meaning::{Cell, Question, Truth};

/// What a box tells of the premises of a question's rules, and nothing of all others.
pub(crate) fn truths_in(
    alloc: Global,
    rules: &Rules,
    times: &Times,
    question: &Question,
    cell: &Cell,
) -> Result<Vec<Truth>, NoMemory>
    requires formed { WellFormed rules.now }
    requires times { AreTimesOf rules.now times.now }
    ensures value { IfOk result (λ truths. truths.items
        ≡ map (asked_truth rules.now question.now cell.now) (all_numbers rules.now)) }
{
    let mut truths = Vec::new(alloc);
    for number in 0..rules.rules.len() {
        let truth = asked_truth(rules, times, question, cell, number);
        truths.push(truth)?;
    }
    Ok(truths)
}

/// What a box tells of the premise of a rule, where it is a question's.
#[tactic(auto, unfolding(crate::specs::internal::Known::asked_truth))]
fn asked_truth(
    rules: &Rules,
    times: &Times,
    question: &Question,
    cell: &Cell,
    number: usize,
) -> Truth
    requires formed { WellFormed rules.now }
    requires times { AreTimesOf rules.now times.now }
    ensures value { result ≡ asked_truth rules.now question.now cell.now number }
{
    if is_asked(rules, question, number) {
        return rule_truth(rules, times, number, cell);
    }
    Truth::Open
}

/// What facts tell of the premises of all rules: of a rule with several facts what the first one
/// tells, and nothing of a rule without one.
pub(crate) fn truths_by(
    alloc: Global,
    rules: &Rules,
    facts: &[(u32, bool)],
) -> Result<Vec<Truth>, NoMemory>
    ensures value { IfOk result (λ truths. AreTruthsBy facts.now (length rules.now.rules)
        truths.items) }
{
    let mut truths = vec![in alloc; Truth::Open; rules.rules.len()]?;
    tell(&mut truths, facts);
    Ok(truths)
}

/// Enters what facts tell in a list that tells nothing.
fn tell(truths: &mut [Truth], facts: &[(u32, bool)])
    requires open { truths.old ≡ replicate (length truths.old) Open }
    ensures told { AreTruthsBy facts.now (length truths.old) truths.new }
{
    let mut at = facts.len();
    'back: while at > 0 {
        at -= 1;
        tell_one(truths, &facts[at]);
    }
}

/// Enters what one fact tells, where there is its rule.
fn tell_one(truths: &mut [Truth], fact: &(u32, bool))
    ensures told { AreToldWith fact.now truths.old truths.new }
{
    let number = fact.0 as usize;
    if number < truths.len() {
        truths[number] = truth_of_fact(fact.1);
    }
}

/// What a fact tells.
fn truth_of_fact(holds: bool) -> Truth
    ensures value { result ≡ truth_of_fact holds }
{
    if holds {
        return Truth::Yes;
    }
    Truth::No
}
