//! The grid of a question.
ghost use Rattle.std.specs.Prelude.{◌≡◌, map, IfOk};
ghost use Rattle.report_lines.specs.Reports.{grid_of as grid_for};
ghost use Rattle.verdict_meaning.specs.Questions.{all_numbers, is_asked as is_its};

use box_eval::is_asked;
use byte_edge::NoMemory;
use list_types::Items;
use question_boxes::{grid_keys, has_moments};
use report_lines::{Grid, KeySet};
use rule_types::Rules;
use std::alloc::Global;
use verdict_meaning::Question;

/// The grid of a question: its keys, whether it has moments, and for each rule whether it is the
/// question's. NoMemory only where memory is wanting. It takes time by the keys that the question's
/// rules read and by the actions of all rules.
pub fn grid_of(alloc: Global, rules: &Rules, question: &Question) -> Result<Grid, NoMemory>
    ensures value { IfOk result (λ grid. grid ≡ grid_for rules.now question.now) }
{
    let keys = grid_keys(alloc, rules, question)?;
    let has_moments = has_moments(alloc, rules, question)?;
    let asked = asked_of(alloc, rules, question)?;
    Ok(Grid {
        keys: KeySet::of(keys),
        has_moments,
        asked,
    })
}

/// For each rule whether it is the question's.
fn asked_of(alloc: Global, rules: &Rules, question: &Question) -> Result<Items<bool>, NoMemory>
    ensures { IfOk result (λ asked. asked
        ≡ map (is_its rules.now question.now) (all_numbers rules.now)) }
{
    let mut asked = Items::new(alloc);
    for number in 0..rules.rules.len() {
        let Ok(()) = asked.push(is_asked(rules, question, number)) else {
            return Err(NoMemory);
        };
    }
    Ok(asked)
}
