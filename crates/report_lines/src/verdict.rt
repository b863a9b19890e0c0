//! The verdicts of a report.
ghost use Rattle.std.specs.Prelude.{◌≡◌, ◌<◌, ◌^◌, length, Some, IfOk};
ghost use Rattle.report_lines.specs.Reports.{verdict_from, verdict_at};
ghost use Rattle.report_lines.specs.internal.Views.{verdict_now};

use crate::body::Body;
use crate::cell::read_cell;
use crate::line::{next_place, text_at};
use crate::state::read_state;
use crate::tree::read_tree;
use crate::verdict_line::{VerdictLine, verdict_line};
use byte_edge::NoMemory;
use exact_fraction::moment::Moment;
use std::alloc::Global;
use verdict_meaning::{Stuck, Verdict};

/// How many levels a tree may have: its root has depth 1.
const MOST_LEVELS: u32 = 1_024;

/// The verdict from the line at a place from 0 on, with the place of the line behind it; or the
/// place of the first line that has not its form. Of a tree the places of the lines of its nodes are
/// listed in `places`, and nothing else. NoMemory only where memory is wanting. `start` is the start of the rules. It
/// takes time in proportion to the lines that it reads, with one look-up of a name and one of a key
/// for each split, and goes down one call for each level of a tree.
#[tactic(auto, unfolding(crate::specs::Reports::verdict_from))]
pub fn read_verdict(
    alloc: Global,
    body: Body<'_>,
    start: Moment,
    at: usize,
    places: &mut Vec<u64>,
) -> Result<Result<(Verdict, usize), usize>, NoMemory>
    requires few { length body.grid.now.asked < 2 ^ 32 }
    requires start { body.rules.now.start ≡ Some start }
    ensures value { IfOk result (λ read. verdict_now read places.new.items
        ≡ verdict_from body.entry.lines.now body.entry.rules.now body.entry.objects.now
        body.entry.grid.now body.entry.facts at) }
{
    places.clear();
    let Some(line) = read_line(alloc, body, at)? else {
        return Ok(Err(at));
    };
    let next = next_place(at)?;
    match line {
        VerdictLine::Holds => match read_tree(alloc, body, MOST_LEVELS, next, places)? {
            Ok((tree, rest)) => Ok(Ok((Verdict::Holds(tree), rest))),
            Err(fault) => Ok(Err(fault)),
        },
        VerdictLine::Refuted => match read_state(alloc, body, start, next)? {
            Ok((state, rest)) => Ok(Ok((Verdict::Refuted(state), rest))),
            Err(fault) => Ok(Err(fault)),
        },
        VerdictLine::Cell => match read_cell(alloc, body, next)? {
            Ok((cell, rest)) => Ok(Ok((Verdict::Undecided(Stuck::Cell(cell)), rest))),
            Err(fault) => Ok(Err(fault)),
        },
        VerdictLine::Count(count) => {
            Ok(Ok((Verdict::Undecided(Stuck::TooManyCells(count)), next)))
        }
    }
}

/// What the line at a place says of a question.
#[tactic(auto, unfolding(crate::specs::Reports::verdict_at))]
fn read_line(alloc: Global, body: Body<'_>, at: usize) -> Result<Option<VerdictLine>, NoMemory>
    ensures { IfOk result (λ line. line ≡ verdict_at body.entry.lines.now at) }
{
    match text_at(body.lines, at) {
        Some(line) => verdict_line(alloc, line),
        None => Ok(None),
    }
}
