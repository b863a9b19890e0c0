//! The numbers of a question's rules.
ghost use Rattle.std.specs.Prelude.{◌≡◌, ◌<◌, [], ◌∷◌, ◌++◌, IfOk, OnOk, length, if◌then◌else◌};
ghost use Rattle.rule_types.specs.WellFormed.{IsCountable};
ghost use Rattle.verdict_meaning.specs.Questions.{asked_numbers, is_asked};

use box_eval::is_asked;
use byte_edge::NoMemory;
use rule_types::Rules;
use std::alloc::Global;
use verdict_meaning::Question;

/// The numbers of a question's rules, in the order of the file.
#[tactic(auto, unfolding(verdict_meaning::specs::Questions::asked_numbers))]
pub(crate) fn asked_numbers(
    alloc: Global,
    rules: &Rules,
    question: &Question,
) -> Result<Vec<u32>, NoMemory>
    requires counted { IsCountable rules.now.rules }
    ensures value { IfOk result (λ numbers.
        numbers.items ≡ asked_numbers rules.now question.now) }
{
    let mut numbers = Vec::new(alloc);
    for number in 0..rules.rules.len() {
        add_asked(&mut numbers, rules, question, number)?;
    }
    Ok(numbers)
}

/// Adds the number of a rule, where it is the question's.
fn add_asked(
    numbers: &mut Vec<u32>,
    rules: &Rules,
    question: &Question,
    number: usize,
) -> Result<(), NoMemory>
    requires counted { IsCountable rules.now.rules }
    requires within { number < length rules.now.rules }
    ensures adds { OnOk result (numbers.new.items ≡ numbers.old.items
        ++ (if is_asked rules.now question.now number then number ∷ [] else [])) }
{
    if is_asked(rules, question, number) {
        numbers.push(number as u32)?;
    }
    Ok(())
}
