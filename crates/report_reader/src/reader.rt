//! The entries of a report.
ghost use Rattle.std.specs.Prelude.{◌≡◌, ◌<◌, ◌^◌, [], length, Some, IfOk};
ghost use Rattle.range_lines.specs.Entries.{in_link_order};
ghost use Rattle.report_lines.specs.Reports.{next_from, entry_from, is_end_line, last_line};
ghost use Rattle.report_lines.specs.Reports.{question_line, known_of, entry_with, verdict_from};
ghost use Rattle.report_lines.specs.Reports.{grid_of as grid_for};
ghost use Rattle.report_lines.specs.Words.{line_at, made_of};
ghost use Rattle.report_reader.specs.Answers.{Answers};
ghost use Rattle.report_reader.specs.internal.Views.{IsFaultAt, entry_reading};
ghost use Rattle.rule_types.specs.Reading.{links_acted};

use crate::entry::EntryRead;
use crate::grid::grid_of;
use crate::version::{is_text, text_at};
use byte_edge::NoMemory;
use exact_fraction::moment::Moment;
use inp_text::Lines;
use object_index::ObjectIndex;
use range_lines::LinkSet;
use report_lines::{Body, Known, ReportEnd, read_question, read_verdict};
use rule_types::Rules;
use std::alloc::Global;
use verdict_meaning::Question;

/// A report: its lines, the rules and the objects that it speaks of, the links that some action acts
/// on, the start of the rules, and whether it has version 2.
#[derive(Clone, Copy)]
pub struct Report<'a> {
    pub lines: &'a Lines,
    pub rules: &'a Rules,
    pub objects: &'a ObjectIndex,
    pub links: &'a LinkSet,
    pub start: Moment,
    pub facts: bool,
}

/// The next entry from the line at a place from 0 on, which is 1 for the first one: None exactly
/// where this line is `end` and the last one. Shape with the first line, from 1, that has not its
/// form; where the report ends too early it is the line behind its last. NoMemory only where memory
/// is wanting. It takes time in proportion to the lines of the entry, to the actions of all rules
/// and to the keys that the question's rules read.
#[tactic(auto, unfolding(report_lines::specs::Reports::next_from))]
pub fn next_entry(
    alloc: Global,
    report: &Report<'_>,
    at: usize,
) -> Result<Option<EntryRead>, ReportEnd>
    requires few { length report.now.rules.now.rules < 2 ^ 32 }
    requires start { report.now.rules.now.start ≡ Some report.now.start }
    requires links { report.now.links.now
        ≡ in_link_order [] (links_acted report.now.rules.now.rules) }
    ensures value { Answers (next_from report.now.lines.now report.now.rules.now
        report.now.objects.now report.now.facts at) result }
{
    if is_end(report.lines, at) {
        return at_end(report.lines, at);
    }
    match read_entry(alloc, report, at) {
        Ok(Ok(read)) => Ok(Some(read)),
        Ok(Err(place)) => Err(fault_at(place)),
        Err(_) => Err(ReportEnd::NoMemory),
    }
}

/// Whether the line at a place is `end`.
fn is_end(lines: &Lines, at: usize) -> bool
    ensures { result ≡ is_end_line (line_at lines.now at) }
{
    match text_at(lines, at) {
        Some(text) => is_text(text, b"end"),
        None => false,
    }
}

/// The end of a report at a line, which is its last.
fn at_end(lines: &Lines, at: usize) -> Result<Option<EntryRead>, ReportEnd>
    requires within { at < length lines.now }
    ensures { Answers (last_line lines.now at) result }
{
    let Some(next) = at.checked_add(1) else {
        return Err(ReportEnd::NoMemory);
    };
    match lines.get(next) {
        None => Ok(None),
        Some(_) => Err(fault_at(next)),
    }
}

/// The fault of the line at a place.
fn fault_at(at: usize) -> ReportEnd
    ensures { IsFaultAt at result }
{
    match (at as u64).checked_add(1) {
        Some(line) => ReportEnd::Shape(line),
        None => ReportEnd::NoMemory,
    }
}

/// The entry from a line on, or the place of the first line at fault.
#[tactic(auto, unfolding(report_lines::specs::Reports::entry_from))]
fn read_entry(
    alloc: Global,
    report: &Report<'_>,
    at: usize,
) -> Result<Result<EntryRead, usize>, NoMemory>
    requires few { length report.now.rules.now.rules < 2 ^ 32 }
    requires start { report.now.rules.now.start ≡ Some report.now.start }
    requires links { report.now.links.now
        ≡ in_link_order [] (links_acted report.now.rules.now.rules) }
    ensures { IfOk result (λ read. entry_reading read ≡ entry_from report.now.lines.now
        report.now.rules.now report.now.objects.now report.now.facts at) }
{
    let Some(question) = question_at(alloc, report, at)? else {
        return Ok(Err(at));
    };
    let Some(next) = at.checked_add(1) else {
        return Err(NoMemory);
    };
    read_body(alloc, report, question, next)
}

/// The question of the line at a place.
fn question_at(alloc: Global, report: &Report<'_>, at: usize) -> Result<Option<Question>, NoMemory>
    requires few { length report.now.rules.now.rules < 2 ^ 32 }
    requires links { report.now.links.now
        ≡ in_link_order [] (links_acted report.now.rules.now.rules) }
    ensures { IfOk result (λ question. question
        ≡ question_line (known_of report.now.rules.now report.now.objects.now)
        (line_at report.now.lines.now at)) }
{
    let known = Known {
        objects: report.objects,
        rules: report.rules.rules.len(),
        links: report.links,
    };
    read_question(alloc, report.lines, at, known)
}

/// The entry of a question, from the line of its verdict on.
fn read_body(
    alloc: Global,
    report: &Report<'_>,
    question: Question,
    at: usize,
) -> Result<Result<EntryRead, usize>, NoMemory>
    requires few { length report.now.rules.now.rules < 2 ^ 32 }
    requires start { report.now.rules.now.start ≡ Some report.now.start }
    ensures { IfOk result (λ read. entry_reading read
        ≡ made_of (entry_with question) (verdict_from report.now.lines.now report.now.rules.now
        report.now.objects.now (grid_for report.now.rules.now question) report.now.facts at)) }
{
    let grid = grid_of(alloc, report.rules, &question)?;
    let body = Body {
        lines: report.lines,
        rules: report.rules,
        objects: report.objects,
        grid: &grid,
        facts: report.facts,
    };
    let mut places = Vec::new(alloc);
    match read_verdict(alloc, body, report.start, at, &mut places)? {
        Ok((verdict, next)) => Ok(Ok(EntryRead {
            question,
            verdict,
            places,
            next,
        })),
        Err(place) => Ok(Err(place)),
    }
}
