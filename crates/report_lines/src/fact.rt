//! The facts of leaves.
ghost use Rattle.std.specs.Prelude.{◌≡◌, ◌<◌, ◌^◌, [], ◌∷◌, ◌++◌, length, OnOk, IfOk, option_map};
ghost use Rattle.report_lines.specs.TreeLines.{is_fact_line as is_of_fact, fact_line as of_line};
ghost use Rattle.report_lines.specs.TreeLines.{fact_by as by_words, fact_with as with_holds};
ghost use Rattle.report_lines.specs.TreeLines.{holds_by as by_word, comes_behind as is_behind};
ghost use Rattle.report_lines.specs.TreeLines.{facts_from, is_asked_at};
ghost use Rattle.report_lines.specs.internal.Views.{texts, reading_now};

use crate::grid::Grid;
use crate::line::{is_word, text_at, words_of};
use crate::parts::next_part;
use crate::value::rule_place;
use byte_edge::NoMemory;
use inp_text::Lines;
use list_types::Items;
use std::alloc::Global;
use verdict_meaning::Facts;

/// The facts from a line on, with the place of the line behind them; or the place of the first line
/// at fault.
pub(crate) fn read_facts(
    alloc: Global,
    lines: &Lines,
    grid: &Grid,
    at: usize,
) -> Result<Result<(Facts, usize), usize>, NoMemory>
    requires few { length grid.now.asked < 2 ^ 32 }
    ensures { IfOk result (λ read. reading_now read
        ≡ facts_from lines.now grid.now (length lines.now) at []) }
{
    let mut facts = Items::new(alloc);
    for place in at..usize::MAX {
        let line = text_at(lines, place);
        if is_fact_line(line) {
            match read_fact(alloc, grid, &facts, line)? {
                Some(fact) => push_fact(&mut facts, fact)?,
                None => return Ok(Err(place)),
            }
        } else {
            return Ok(Ok((facts, place)));
        }
    }
    Err(NoMemory)
}

/// Adds a fact.
fn push_fact(facts: &mut Facts, fact: (u32, bool)) -> Result<(), NoMemory>
    ensures { OnOk result (facts.new ≡ facts.old ++ fact ∷ []) }
{
    match facts.push(fact) {
        Ok(()) => Ok(()),
        Err(_) => Err(NoMemory),
    }
}

/// Whether the first word of a line is `fact`.
#[tactic(auto, unfolding(crate::specs::Words::words_of))]
fn is_fact_line(line: Option<&[u8]>) -> bool
    ensures { result ≡ is_of_fact (option_map (λ text. text.now) line.entry) }
{
    match line {
        Some(text) => is_word(next_part(text, b' ').part, b"fact"),
        None => false,
    }
}

/// The fact of a line, behind others.
#[tactic(auto, unfolding(crate::specs::TreeLines::fact_line))]
fn read_fact(
    alloc: Global,
    grid: &Grid,
    facts: &Facts,
    line: Option<&[u8]>,
) -> Result<Option<(u32, bool)>, NoMemory>
    requires few { length grid.now.asked < 2 ^ 32 }
    ensures { IfOk result (λ fact. fact
        ≡ of_line grid.now facts.now (option_map (λ text. text.now) line.entry)) }
{
    match line {
        Some(text) => {
            let words = words_of(alloc, text)?;
            Ok(fact_by(grid, facts, words.as_slice()))
        }
        None => Ok(None),
    }
}

/// The fact of these words.
fn fact_by<'a>(grid: &Grid, facts: &Facts, words: &'a [&'a [u8]]) -> Option<(u32, bool)>
    requires few { length grid.now.asked < 2 ^ 32 }
    ensures { result ≡ by_words grid.now facts.now (texts words.now) }
{
    match words {
        [_, rule, holds] => {
            let place = rule_place(grid.asked.len(), rule)?;
            fact_with(grid, facts, place, holds_by(holds))
        }
        _ => None,
    }
}

/// The fact on a rule, where it is one of the question's and comes behind the others.
fn fact_with(grid: &Grid, facts: &Facts, rule: u32, holds: Option<bool>) -> Option<(u32, bool)>
    ensures { result ≡ with_holds grid.now facts.now rule holds }
{
    let holds = holds?;
    if is_asked(grid, rule) && comes_behind(rule, facts) {
        Some((rule, holds))
    } else {
        None
    }
}

/// Whether a rule is the question's.
fn is_asked(grid: &Grid, rule: u32) -> bool
    ensures { result ≡ is_asked_at grid.now.asked rule }
{
    match grid.asked.get(rule as usize) {
        Some(asked) => *asked,
        None => false,
    }
}

/// Whether a rule comes behind those of facts.
fn comes_behind(rule: u32, facts: &Facts) -> bool
    ensures { result ≡ is_behind rule facts.now }
{
    match facts.get(facts.len().saturating_sub(1)) {
        Some(last) => last.0 < rule,
        None => true,
    }
}

/// What a word says of a rule.
fn holds_by(word: &[u8]) -> Option<bool>
    ensures { result ≡ by_word word.now }
{
    if is_word(word, b"yes") {
        return Some(true);
    }
    if is_word(word, b"no") {
        return Some(false);
    }
    None
}
