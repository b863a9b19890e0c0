//! The check of a report.
ghost use Rattle.std.specs.Prelude.{◌≡◌, [], length, Some, None, Ok, Err, IfSome, option_map};
ghost use Rattle.range_lines.specs.Entries.{in_link_order};
ghost use Rattle.report_checker.specs.Accepted.{entries_judged, entry_fault, entry_judged};
ghost use Rattle.report_checker.specs.Accepted.{fault_at, next_judged, no_counts, report_judged};
ghost use Rattle.report_checker.specs.Answers.{IsAnswer};
ghost use Rattle.report_checker.specs.internal.Steps.{Steps, form_stop as stop_of_form};
ghost use Rattle.report_lines.specs.Reports.{next_from};
ghost use Rattle.report_reader.specs.Answers.{entry_now};
ghost use Rattle.rule_types.specs.Reading.{links_acted};
ghost use Rattle.rule_types.specs.Tables.{HoldsTables};
ghost use Rattle.rule_types.specs.WellFormed.{WellFormed};
ghost use Rattle.verdict_meaning.specs.declared.cert.CertCause.TheVariants as cause;

use crate::counts::Counts;
use crate::entry::verdict_fault;
use crate::fault::{ReportFault, ReportStop};
use curves_series::Tables;
use inp_text::Lines;
use object_index::ObjectIndex;
use range_lines::LinkSet;
use report_lines::ReportEnd;
use report_reader::{EntryRead, Report, next_entry, read_version};
use rule_types::Rules;
use std::alloc::Global;
use verdict_meaning::{CertCause, Ranges};

/// How far a report was judged: the place from 0 of the next entry, and the counts of those before.
#[derive(Clone, Copy)]
struct Progress {
    at: usize,
    counts: Counts,
}

/// Checks a report for rules that are prepared for ranges: the numbers of its entries by their
/// verdicts exactly where each entry has its form and its verdict is accepted: Holds with a
/// certificate that is accepted, Refuted with a state of the ranges that has the question's event,
/// and Undecided as it stands. Else the first fault in the order of entries: Shape where a line has
/// not its form, or a node is not well formed, NotShown at the line of a leaf whose box is not shown,
/// NoEvent at the line `refuted` of a state that is outside the ranges or does not have the event.
/// NoMemory only where memory is wanting. It holds one entry at a time, and takes time in proportion
/// to the lines, and for each entry to what its certificate or its state asks for.
#[tactic(auto, unfolding(crate::specs::Accepted::report_judged))]
pub fn check_report(
    alloc: Global,
    lines: &Lines,
    rules: &Rules,
    tables: &Tables,
    objects: &ObjectIndex,
    ranges: &Ranges,
) -> Result<Counts, ReportStop>
    requires formed { WellFormed rules.now }
    requires tables { HoldsTables tables.now rules.now.rules }
    requires start { rules.now.start ≡ Some ranges.now.start }
    ensures answer { IsAnswer
        (report_judged rules.now tables.now objects.now ranges.now lines.now) result }
{
    let Some(facts) = read_version(lines) else {
        return Err(shape_at(0));
    };
    let Ok(links) = LinkSet::of_rules(alloc, rules.rules.as_slice()) else {
        return Err(ReportStop::NoMemory);
    };
    let Some(most) = count_lines(lines) else {
        return Err(ReportStop::NoMemory);
    };
    let report = Report {
        lines,
        rules,
        objects,
        links: &links,
        start: ranges.start,
        facts,
    };
    check_entries(alloc, &report, tables, ranges, most)
}

/// The number of lines.
fn count_lines(lines: &Lines) -> Option<usize>
    ensures { IfSome result (λ count. count ≡ length lines.now) }
{
    for at in 0..usize::MAX {
        let Some(_line) = lines.get(at) else {
            return Some(at);
        };
    }
    None
}

/// The entries of a report, of which there are fewer than so many.
fn check_entries(
    alloc: Global,
    report: &Report<'_>,
    tables: &Tables,
    ranges: &Ranges,
    most: usize,
) -> Result<Counts, ReportStop>
    requires formed { WellFormed report.now.rules.now }
    requires tables { HoldsTables tables.now report.now.rules.now.rules }
    requires start { report.now.rules.now.start ≡ Some report.now.start }
    requires links { report.now.links.now
        ≡ in_link_order [] (links_acted report.now.rules.now.rules) }
    ensures answer { IsAnswer (entries_judged report.now.rules.now tables.now report.now.objects.now
        ranges.now report.now.lines.now report.now.facts most 1 no_counts) result }
{
    let mut place = Progress {
        at: 1,
        counts: Counts::none(),
    };
    for _turn in 0..most {
        let found = match judge_next(alloc, report, tables, ranges, &place) {
            Ok(found) => found,
            Err(stop) => return Err(stop),
        };
        let Some(next) = found else {
            return Ok(place.counts);
        };
        place = next;
    }
    Err(shape_at(place.at))
}

/// One entry, or the end of the report.
fn judge_next(
    alloc: Global,
    report: &Report<'_>,
    tables: &Tables,
    ranges: &Ranges,
    place: &Progress,
) -> Result<Option<Progress>, ReportStop>
    requires formed { WellFormed report.now.rules.now }
    requires tables { HoldsTables tables.now report.now.rules.now.rules }
    requires start { report.now.rules.now.start ≡ Some report.now.start }
    requires links { report.now.links.now
        ≡ in_link_order [] (links_acted report.now.rules.now.rules) }
    ensures step { Steps (λ later. next_judged report.now.rules.now tables.now ranges.now
        place.now.at later place.now.counts (next_from report.now.lines.now report.now.rules.now
        report.now.objects.now report.now.facts place.now.at)) place.now.counts result }
{
    match next_entry(alloc, report, place.at) {
        Ok(found) => after_read(alloc, report.rules, tables, ranges, place, &found),
        Err(end) => Err(form_stop(&end)),
    }
}

/// The same once it is read.
fn after_read(
    alloc: Global,
    rules: &Rules,
    tables: &Tables,
    ranges: &Ranges,
    place: &Progress,
    found: &Option<EntryRead>,
) -> Result<Option<Progress>, ReportStop>
    requires formed { WellFormed rules.now }
    requires tables { HoldsTables tables.now rules.now.rules }
    ensures step { Steps (λ later. next_judged rules.now tables.now ranges.now place.now.at later
        place.now.counts (Ok (option_map entry_now found.now))) place.now.counts result }
{
    match found {
        Some(read) => judge_entry(alloc, rules, tables, ranges, place, read),
        None => Ok(None),
    }
}

/// An entry that was read.
fn judge_entry(
    alloc: Global,
    rules: &Rules,
    tables: &Tables,
    ranges: &Ranges,
    place: &Progress,
    read: &EntryRead,
) -> Result<Option<Progress>, ReportStop>
    requires formed { WellFormed rules.now }
    requires tables { HoldsTables tables.now rules.now.rules }
    ensures step { Steps (λ later. entry_judged later place.now.counts (entry_now read.now)
        (entry_fault rules.now tables.now ranges.now place.now.at (entry_now read.now).value))
        place.now.counts result }
{
    let Some(at) = (place.at as u64).checked_add(1) else {
        return Err(ReportStop::NoMemory);
    };
    let Ok(fault) = verdict_fault(
        alloc,
        rules,
        tables,
        ranges,
        &read.question,
        &read.places,
        at,
        &read.verdict,
    ) else {
        return Err(ReportStop::NoMemory);
    };
    match fault {
        Some(fault) => Err(ReportStop::Fault(fault)),
        None => count_entry(place, read),
    }
}

/// An entry that is accepted.
fn count_entry(place: &Progress, read: &EntryRead) -> Result<Option<Progress>, ReportStop>
    ensures step { Steps (λ later. entry_judged later place.now.counts (entry_now read.now) None)
        place.now.counts result }
{
    match place.counts.with_verdict(&read.verdict) {
        Some(counts) => Ok(Some(Progress {
            at: read.next,
            counts,
        })),
        None => Err(ReportStop::NoMemory),
    }
}

/// The stop of a line that has not its form.
fn form_stop(end: &ReportEnd) -> ReportStop
    ensures { result ≡ stop_of_form end.now }
{
    match end {
        ReportEnd::Shape(line) => ReportStop::Fault(ReportFault {
            line: *line,
            cause: CertCause::Shape,
        }),
        ReportEnd::NoMemory => ReportStop::NoMemory,
    }
}

/// The same of the line at a place from 0.
fn shape_at(at: usize) -> ReportStop
    ensures { IsAnswer (Err (fault_at at cause.Shape)) (Err result) }
{
    match (at as u64).checked_add(1) {
        Some(line) => ReportStop::Fault(ReportFault {
            line,
            cause: CertCause::Shape,
        }),
        None => ReportStop::NoMemory,
    }
}
