//! The questions of a ranges file that asks none.
ghost use Rattle.std.specs.Prelude.{◌≡◌, ◌++◌, ◌+◌, ◌<◌, ◌≤◌, ◌^◌, map, drop, length, IfOk, OnOk};
ghost use Rattle.range_lines.specs.Questions.{rule_links, dead_questions, conflicts_with};
ghost use Rattle.range_lines.specs.Questions.{conflicts_among, all_questions as all_of};

use crate::link_set::{LinkSet, push_question};
use byte_edge::NoMemory;
use list_types::Items;
use rule_types::Rule;
use std::alloc::Global;
use verdict_meaning::Question;

/// Whether each rule is dead, and whether each two conflict on each link on which both act.
#[tactic(auto, unfolding(crate::specs::Questions::all_questions))]
pub(crate) fn all_questions(alloc: Global, rules: &[Rule]) -> Result<Items<Question>, NoMemory>
    requires few { length rules.now < 2 ^ 32 }
    ensures { IfOk result (λ questions. questions ≡ all_of rules.now) }
{
    let mut questions = Items::new(alloc);
    ask_dead(&mut questions, rules)?;
    let links = links_of(alloc, rules)?;
    ask_conflicts(&mut questions, links.as_slice())?;
    Ok(questions)
}

/// Asks whether each rule is dead.
#[tactic(auto, unfolding(crate::specs::Questions::dead_questions))]
fn ask_dead(questions: &mut Items<Question>, rules: &[Rule]) -> Result<(), NoMemory>
    requires few { length rules.now < 2 ^ 32 }
    ensures { OnOk result (questions.new ≡ questions.old ++ dead_questions 0 rules.now) }
{
    for (index, _) in rules.iter().enumerate() {
        push_question(questions, Question::Dead(index as u32))?;
    }
    Ok(())
}

/// The links that each rule acts on.
fn links_of(alloc: Global, rules: &[Rule]) -> Result<Vec<LinkSet>, NoMemory>
    ensures { IfOk result (λ sets. sets.items ≡ map rule_links rules.now) }
{
    let mut sets = Vec::new(alloc);
    for rule in rules {
        let Ok(()) = sets.push(LinkSet::of_rule(alloc, rule)?) else {
            return Err(NoMemory);
        };
    }
    Ok(sets)
}

/// Asks whether each two rules, which act on these links, conflict.
#[tactic(auto, unfolding(crate::specs::Questions::conflicts_among))]
fn ask_conflicts(questions: &mut Items<Question>, sets: &[LinkSet]) -> Result<(), NoMemory>
    requires few { length sets.now < 2 ^ 32 }
    ensures { OnOk result (questions.new ≡ questions.old ++ conflicts_among 0 sets.now) }
{
    for (index, links) in sets.iter().enumerate() {
        ask_with(questions, index as u32, links, sets, index + 1)?;
    }
    Ok(())
}

/// Asks whether a rule, which acts on these links, conflicts with those from a number on.
#[tactic(auto, unfolding(crate::specs::Questions::conflicts_with))]
fn ask_with(
    questions: &mut Items<Question>,
    rule: u32,
    links: &LinkSet,
    sets: &[LinkSet],
    from: usize,
) -> Result<(), NoMemory>
    requires few { length sets.now < 2 ^ 32 }
    requires within { from ≤ length sets.now }
    ensures { OnOk result (questions.new ≡ questions.old
        ++ conflicts_with rule links.now from (drop from sets.now)) }
{
    for number in from..sets.len() {
        links.ask_conflicts(questions, rule, number as u32, &sets[number])?;
    }
    Ok(())
}
