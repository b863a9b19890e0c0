//! The keys that the rules of a question read.
ghost use Rattle.std.specs.Prelude.{◌≡◌, [], OnOk, IfOk, if◌then◌else◌, slice_get};
ghost use Rattle.rule_types.specs.Reading.{keys_read};
ghost use Rattle.verdict_meaning.specs.Questions.{asked_rules, is_asked};
ghost use Rattle.question_boxes.specs.internal.KeyLists.{Adds, rule_reads};

use crate::reads::KeyList;
use box_eval::is_asked;
use byte_edge::NoMemory;
use rule_types::Rules;
use std::alloc::Global;
use verdict_meaning::Question;

/// The keys that the conditions of a question's rules read, in the order of the rules.
pub(crate) fn keys_read(
    alloc: Global,
    rules: &Rules,
    question: &Question,
) -> Result<KeyList, NoMemory>
    ensures keys { IfOk result (λ list. list.keys.items
        ≡ keys_read rules.now.names (asked_rules rules.now question.now)) }
{
    let mut list = KeyList {
        keys: Vec::new(alloc),
    };
    for number in 0..rules.rules.len() {
        add_asked(&mut list, rules, question, number)?;
    }
    Ok(list)
}

/// Adds the keys that a rule reads, where it is the question's.
#[tactic(auto, using(crate::proofs::Additions::additions))]
fn add_asked(
    list: &mut KeyList,
    rules: &Rules,
    question: &Question,
    number: usize,
) -> Result<(), NoMemory>
    ensures adds { OnOk result (Adds list.old list.new
        (if is_asked rules.now question.now number
        then rule_reads rules.now.names (slice_get rules.now.rules number) else [])) }
{
    if is_asked(rules, question, number) {
        return add_rule(list, rules, number);
    }
    Ok(())
}

/// Adds the keys that a rule reads.
#[tactic(auto, using(crate::proofs::Additions::additions))]
fn add_rule(list: &mut KeyList, rules: &Rules, number: usize) -> Result<(), NoMemory>
    ensures adds { OnOk result (Adds list.old list.new
        (rule_reads rules.now.names (slice_get rules.now.rules number))) }
{
    match rules.rules.get(number) {
        Some(rule) => list.conditions(rules.names.as_slice(), rule.conditions.as_slice()),
        None => Ok(()),
    }
}
