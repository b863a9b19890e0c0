//! The questions of a report.
ghost use Rattle.std.specs.Prelude.{◌≡◌, ◌<◌, ◌^◌, IfOk};
ghost use Rattle.report_lines.specs.QuestionLines.{link_named, link_if as if_acted, question_by};
ghost use Rattle.report_lines.specs.QuestionLines.{conflict_of as of_conflict, dead_of as of_dead};
ghost use Rattle.report_lines.specs.QuestionLines.{limit_of as of_limit, three_words as by_three};
ghost use Rattle.report_lines.specs.QuestionLines.{one_word as by_one};
ghost use Rattle.report_lines.specs.Reports.{question_line};
ghost use Rattle.report_lines.specs.Words.{line_at};
ghost use Rattle.report_lines.specs.internal.Views.{known_now, texts};

use crate::known::Known;
use crate::line::{is_word, text_at, words_of};
use crate::value::{rule_place, value_of};
use byte_edge::NoMemory;
use exact_fraction::frac::Frac;
use inp_text::Lines;
use key_words::name_text;
use object_index::Unresolved;
use rule_types::{ObjectNo, ObjectWord};
use std::alloc::Global;
use verdict_meaning::Question;

/// The question that the line at a place from 0 asks: None exactly where there is no such line, or
/// it has not the form of a question. NoMemory only where memory is wanting. It takes time in
/// proportion to the line, and one look-up of a name.
pub fn read_question(
    alloc: Global,
    lines: &Lines,
    at: usize,
    known: Known<'_>,
) -> Result<Option<Question>, NoMemory>
    requires few { known.rules < 2 ^ 32 }
    ensures value { IfOk result (λ question. question
        ≡ question_line (known_now known.entry) (line_at lines.now at)) }
{
    match text_at(lines, at) {
        Some(line) => {
            let words = words_of(alloc, line)?;
            question_by(alloc, known, words.as_slice())
        }
        None => Ok(None),
    }
}

/// The question of these words.
#[tactic(auto, unfolding(crate::specs::QuestionLines::question_by))]
fn question_by<'a>(
    alloc: Global,
    known: Known<'_>,
    words: &'a [&'a [u8]],
) -> Result<Option<Question>, NoMemory>
    requires few { known.rules < 2 ^ 32 }
    ensures { IfOk result (λ question. question
        ≡ question_by (known_now known.entry) (texts words.now)) }
{
    match words {
        [head, kind, rule] => {
            if is_word(head, b"question") {
                Ok(one_word(known, kind, rule))
            } else {
                Ok(None)
            }
        }
        [head, kind, first, second, third] => {
            if is_word(head, b"question") {
                three_words(alloc, known, kind, first, second, third)
            } else {
                Ok(None)
            }
        }
        _ => Ok(None),
    }
}

/// The question of a kind with one word.
fn one_word(known: Known<'_>, kind: &[u8], rule: &[u8]) -> Option<Question>
    requires few { known.rules < 2 ^ 32 }
    ensures { result ≡ by_one (known_now known.entry) kind.now rule.now }
{
    if is_word(kind, b"dead") {
        return dead_of(rule_place(known.rules, rule));
    }
    None
}

/// The question of a kind with three words.
fn three_words(
    alloc: Global,
    known: Known<'_>,
    kind: &[u8],
    first: &[u8],
    second: &[u8],
    third: &[u8],
) -> Result<Option<Question>, NoMemory>
    requires few { known.rules < 2 ^ 32 }
    ensures { IfOk result (λ question. question
        ≡ by_three (known_now known.entry) kind.now first.now second.now third.now) }
{
    if is_word(kind, b"conflict") {
        let link = link_named(alloc, known, third)?;
        return Ok(conflict_of(
            rule_place(known.rules, first),
            rule_place(known.rules, second),
            link,
        ));
    }
    if is_word(kind, b"limit") {
        let link = link_named(alloc, known, first)?;
        return Ok(limit_of(link, value_of(second), value_of(third)));
    }
    Ok(None)
}

/// Whether two rules conflict on a link, where these are there.
fn conflict_of(first: Option<u32>, second: Option<u32>, link: Option<u32>) -> Option<Question>
    ensures { result ≡ of_conflict first second link }
{
    let first = first?;
    let second = second?;
    let link = link?;
    if first == second {
        return None;
    }
    Some(Question::Conflict(first, second, link))
}

/// Whether a rule is dead, where there is one.
fn dead_of(rule: Option<u32>) -> Option<Question>
    ensures { result ≡ of_dead rule }
{
    let rule = rule?;
    Some(Question::Dead(rule))
}

/// Whether a link stays between two settings, where these are there and rise.
fn limit_of(link: Option<u32>, low: Option<Frac>, high: Option<Frac>) -> Option<Question>
    ensures { result ≡ of_limit link low high }
{
    let link = link?;
    let low = low?;
    let high = high?;
    if high.is_less(&low) {
        return None;
    }
    Some(Question::Limit(link, low, high))
}

/// The link whose name a word is, where an action acts on it.
#[tactic(auto, unfolding(crate::specs::QuestionLines::link_named))]
fn link_named(alloc: Global, known: Known<'_>, name: &[u8]) -> Result<Option<u32>, NoMemory>
    ensures { IfOk result (λ link. link ≡ link_named (known_now known.entry) name.now) }
{
    match known.objects.resolve(alloc, ObjectWord::Link, name) {
        Ok(object) => Ok(link_if(known, name, object)),
        Err(Unresolved::NoMemory) => Err(NoMemory),
        Err(_) => Ok(None),
    }
}

/// The link, where its name has these bytes and an action acts on it.
fn link_if(known: Known<'_>, name: &[u8], object: ObjectNo) -> Option<u32>
    ensures { result ≡ if_acted (known_now known.entry) name.now object }
{
    if name_text(known.objects, object) == name && known.links.contains(object.index) {
        Some(object.index)
    } else {
        None
    }
}
