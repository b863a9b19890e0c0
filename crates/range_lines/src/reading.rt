//! The ranges of a file.
ghost use Rattle.std.specs.Prelude.{◌≡◌, ◌+◌, ◌-◌, ◌<◌, ◌^◌, length, Some, None, option_map, IfOk};
ghost use Rattle.range_lines.specs.Causes.{Reads, missing_moment as without_moments};
ghost use Rattle.range_lines.specs.Lines.{ranges_in, lines_read, known_of, no_lines};
ghost use Rattle.range_lines.specs.Lines.{ranges_of as of_given, ranges_unless, start_from};
ghost use Rattle.range_lines.specs.Lines.{step_from, questions_from as all_or};
ghost use Rattle.range_lines.specs.Lines.{unread_start as start_of_time};
ghost use Rattle.range_lines.specs.Needs.{needs_fault, key_fault};
ghost use Rattle.range_lines.specs.declared.fault.RangeEnd.TheVariants as end;
ghost use Rattle.range_lines.specs.internal.Views.{known_now, end_of};
ghost use Rattle.rule_types.specs.WellFormed.{WellFormed};
ghost use Rattle.verdict_meaning.specs.FitRanges.{RangesFit};

use crate::fault::{RangeCause, RangeEnd};
use crate::given::Given;
use crate::known::Known;
use crate::link_set::LinkSet;
use crate::needs::{first_missing, has_series};
use crate::questions::all_questions;
use crate::rule_ids::RuleIds;
use byte_edge::NoMemory;
use exact_fraction::moment::Moment;
use inp_text::Lines;
use list_types::Items;
use object_index::ObjectIndex;
use rule_types::{Key, Rule, Rules};
use std::alloc::Global;
use verdict_meaning::{Question, Ranges};

/// The ranges that the lines of a file give for rules over objects, or the file's first fault: on
/// the first line at fault the first of BadLine, UnknownKey, EmptyRange and Duplicate, and after all
/// lines MissingRange with the first such key in key order, and then MissingMoment. NoMemory only
/// where memory is wanting. It takes time in proportion to the lines and the rules, for each name,
/// id and key one look-up, and where no line asks a question time by the pairs of rules.
#[tactic(auto, unfolding(crate::specs::Lines::ranges_in))]
pub fn read_ranges(
    alloc: Global,
    lines: &Lines,
    rules: &Rules,
    objects: &ObjectIndex,
) -> Result<Ranges, RangeEnd>
    ensures file { Reads (ranges_in rules.now objects.now lines.now) result }
    ensures fit { WellFormed rules.now → IfOk result (λ ranges. RangesFit rules.now ranges) }
{
    const MOST: u64 = 1 << 32;
    if rules.rules.len() as u64 >= MOST {
        return Err(RangeEnd::NoMemory);
    }
    match read_file(alloc, lines, rules, objects) {
        Ok(read) => read,
        Err(_) => Err(RangeEnd::NoMemory),
    }
}

/// The same of rules whose places are counted in 32 bits.
#[tactic(auto, unfolding(crate::specs::Lines::ranges_in))]
fn read_file(
    alloc: Global,
    lines: &Lines,
    rules: &Rules,
    objects: &ObjectIndex,
) -> Result<Result<Ranges, RangeEnd>, NoMemory>
    requires few { length rules.now.rules < 2 ^ 32 }
    ensures { IfOk result (λ read. Reads (ranges_in rules.now objects.now lines.now) read) }
{
    let ids = RuleIds::of(alloc, rules.rules.as_slice())?;
    let links = LinkSet::of_rules(alloc, rules.rules.as_slice())?;
    let known = Known {
        objects,
        ids: &ids,
        links: &links,
    };
    match read_lines(alloc, known, lines)? {
        Ok(given) => finish(alloc, rules, given),
        Err(end) => Ok(Err(end)),
    }
}

/// What lines state, or the first line at fault.
fn read_lines(
    alloc: Global,
    known: Known<'_>,
    lines: &Lines,
) -> Result<Result<Given, RangeEnd>, NoMemory>
    ensures { IfOk result (λ read.
        Reads (lines_read (known_now known.entry) 1 no_lines lines.now) read) }
{
    let mut given = Given::new(alloc);
    for at in 0..usize::MAX {
        let Some(line) = lines.get(at) else {
            return Ok(Ok(given));
        };
        match given.after_line(alloc, known, line)? {
            Ok(next) => given = next,
            Err(cause) => return Ok(Err(line_fault(at, cause))),
        }
    }
    Err(NoMemory)
}

/// The fault of a line, by its place from 0.
fn line_fault(at: usize, cause: RangeCause) -> RangeEnd
    requires counted { at < 2 ^ 64 - 1 }
    ensures { result ≡ end.Fault (Some (at + 1)) cause None }
{
    RangeEnd::Fault {
        line: Some(at as u64 + 1),
        cause,
        key: None,
    }
}

/// The ranges, unless something that the rules need is not given.
fn finish(alloc: Global, rules: &Rules, given: Given) -> Result<Result<Ranges, RangeEnd>, NoMemory>
    requires few { length rules.now.rules < 2 ^ 32 }
    ensures { IfOk result (λ read.
        Reads (ranges_unless rules.now given (needs_fault rules.now given)) read) }
{
    match find_need(alloc, rules, &given)? {
        Some(end) => Ok(Err(end)),
        None => Ok(Ok(ranges_of(alloc, rules, given)?)),
    }
}

/// What the rules need that is not given.
#[tactic(auto, unfolding(crate::specs::Needs::needs_fault))]
fn find_need(alloc: Global, rules: &Rules, given: &Given) -> Result<Option<RangeEnd>, NoMemory>
    ensures { IfOk result (λ need. need ≡ option_map end_of (needs_fault rules.now given.now)) }
{
    if let Some(key) = first_missing(alloc, rules, given)? {
        return Ok(Some(need_of(key)));
    }
    if given.moments.is_none() && has_series(rules.rules.as_slice()) {
        return Ok(Some(missing_moment()));
    }
    Ok(None)
}

/// The fault of a file in which a key is not given what it needs.
fn need_of(key: Key) -> RangeEnd
    ensures { result ≡ end_of (key_fault key) }
{
    match key {
        Key::Object(object, attribute) => RangeEnd::Fault {
            line: None,
            cause: RangeCause::MissingRange,
            key: Some(Key::Object(object, attribute)),
        },
        Key::Clock(_) => missing_moment(),
    }
}

/// The fault of a file that has no moments.
fn missing_moment() -> RangeEnd
    ensures { result ≡ end_of without_moments }
{
    RangeEnd::Fault {
        line: None,
        cause: RangeCause::MissingMoment,
        key: None,
    }
}

/// The ranges of what lines state.
fn ranges_of(alloc: Global, rules: &Rules, given: Given) -> Result<Ranges, NoMemory>
    requires few { length rules.now.rules < 2 ^ 32 }
    ensures { IfOk result (λ ranges. ranges ≡ of_given rules.now given) }
{
    let Given {
        ranges,
        moments,
        step,
        questions,
    } = given;
    let start = start_of(&rules.start, &moments);
    let step = step.unwrap_or(rules.routing_step);
    let keys = ranges.list(alloc)?;
    let questions = questions_or_all(alloc, rules.rules.as_slice(), questions)?;
    Ok(Ranges {
        keys,
        moments,
        start,
        step,
        questions,
    })
}

/// The start: that of the rules, and without one the first moment.
fn start_of(start: &Option<Moment>, moments: &Option<(Moment, Moment)>) -> Moment
    ensures { result ≡ start_from start.now moments.now }
{
    match moments {
        Some((first, _)) => match start {
            Some(start) => *start,
            None => *first,
        },
        None => unread_start(),
    }
}

/// 1970-01-01T00:00:00.
#[tactic(auto, unfolding(exact_fraction::specs::Moments::moment_at))]
fn unread_start() -> Moment
    ensures { result ≡ start_of_time }
{
    Moment::make(0).unwrap()
}

/// The questions, and where there is none all of the rules.
fn questions_or_all(
    alloc: Global,
    rules: &[Rule],
    questions: Items<Question>,
) -> Result<Items<Question>, NoMemory>
    requires few { length rules.now < 2 ^ 32 }
    ensures { IfOk result (λ found. found ≡ all_or rules.now questions) }
{
    if questions.is_empty() {
        return all_questions(alloc, rules);
    }
    Ok(questions)
}
