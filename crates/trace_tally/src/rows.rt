//! The rows of a trace that is held in memory.
ghost use Rattle.std.specs.Prelude.{◌≡◌, ◌<◌, ◌≤◌, ◌+◌, ◌^◌, ℕ, List, [], ◌∷◌, map, length};
ghost use Rattle.std.specs.Prelude.{Option, Some, Result, IfOk, OnOk};
ghost use Rattle.byte_edge.specs.Lines.{lines as lines_of, capped};
ghost use Rattle.exact_fraction.specs.Order.{same};
ghost use Rattle.rule_meaning.specs.History.{controlled_settings};
ghost use Rattle.trace_replay.specs.Progress.{kept_of, IsProgressOf};
ghost use Rattle.trace_tally.specs.TraceRows.{rows_from};
ghost use Rattle.trace_tally.specs.Tallies.{Tally, tallied, changes as changes_of};
ghost use Rattle.trace_tally.specs.Giving.{Gives, tally_with};
ghost use Rattle.trace_tally.specs.internal.Starting.{IsAtFirstRow};
ghost use Rattle.trace_tally.specs.internal.Taking.{CanTakeRow, Taken, TakesLine};

use crate::byte_lines::first_line;
use crate::complaints::{fault, row_stop};
use command_outputs::{Complaint, TRACE_FILE};
use exact_fraction::frac::Frac;
use std::alloc::Global;
use trace_csv::{Header, TraceCause, TraceEnd, WrittenMoment};
use trace_replay::{Reads, Replay};

/// Replays the rows on the lines behind a header, and counts the switches. `inputs` has room for
/// the inputs of a row, and `before` holds the settings before the first one, and then those after
/// the last one. It takes no memory but for a line with quotes.
pub(crate) fn replay_rows<R: Reads>(
    alloc: Global,
    replay: &mut Replay<'_, R>,
    header: &Header,
    inputs: &mut [Option<Frac>],
    before: &mut [Frac],
    lines: &[u8],
) -> Result<u64, Complaint>
    requires few { length lines.now < 2 ^ 32 }
    requires reads { R.is_ready replay.old.readings }
    requires made_for { R.made_for replay.old.readings ≡ replay.old.rules.now }
    requires progress { IsProgressOf replay.old.rules.now replay.old.progress }
    requires first { IsAtFirstRow (R.choice replay.old.readings) replay.old.rules.now
        (R.held replay.old.readings) header.now (kept_of replay.old.progress) }
    requires inputs { length inputs.old ≡ header.now.inputs }
    requires before { before.old
        ≡ controlled_settings replay.old.rules.now (kept_of replay.old.progress).standings }

    ensures gives { Gives
        (tallied (R.choice replay.old.readings) replay.old.rules.now (R.held replay.old.readings)
        (rows_from (R.choice replay.old.readings) replay.old.rules.now
        (R.held replay.old.readings) header.now [] 2 (map (capped 65536) (lines_of lines.now))))
        (tally_with before.new) result }
{
    let mut written = WrittenMoment::epoch();
    let mut switches: u64 = 0;
    let mut number: u64 = 2;
    let mut rest = lines;
    'lines: loop {
        let Some(first) = first_line(rest, TRACE_FILE.limit) else {
            return Ok(switches);
        };
        let Some(line) = first.line else {
            return Err(fault(alloc, number, TraceCause::LineTooLong));
        };
        match take_line(
            alloc,
            replay,
            header,
            &mut written,
            inputs,
            before,
            number,
            line,
        ) {
            Ok(more) => switches += more,
            Err(complaint) => return Err(complaint),
        }
        number += 1;
        rest = first.rest;
    }
}

/// Takes a line behind the header: replays its row, if it has one, and counts the settings that
/// changed. `before` holds the settings before the row, and then those after it; `written` is best
/// the moment of the row before.
fn take_line<R: Reads>(
    alloc: Global,
    replay: &mut Replay<'_, R>,
    header: &Header,
    written: &mut WrittenMoment,
    inputs: &mut [Option<Frac>],
    before: &mut [Frac],
    number: u64,
    line: &[u8],
) -> Result<u64, Complaint>
    requires reads { R.is_ready replay.old.readings }
    requires made_for { R.made_for replay.old.readings ≡ replay.old.rules.now }
    requires progress { IsProgressOf replay.old.rules.now replay.old.progress }
    requires ready { CanTakeRow (R.choice replay.old.readings) replay.old.rules.now
        (R.held replay.old.readings) header.now (kept_of replay.old.progress) }
    requires inputs { length inputs.old ≡ header.now.inputs }
    requires before { before.old
        ≡ controlled_settings replay.old.rules.now (kept_of replay.old.progress).standings }

    ensures takes { (switches : ℕ) (file : List (Option (List ℕ))) (due : Result Tally (List ℕ))
        → Taken (R.choice replay.old.readings) replay.old.rules.now (R.held replay.old.readings)
        header.now (kept_of replay.old.progress) switches number (Some line.now ∷ file) due
        → TakesLine (λ more. Taken (R.choice replay.new.readings) replay.new.rules.now
        (R.held replay.new.readings) header.now (kept_of replay.new.progress)
        (switches + more) (number + 1) file due) due result }
    ensures settings { OnOk result (before.new
        ≡ controlled_settings replay.new.rules.now (kept_of replay.new.progress).standings) }
    ensures most { IfOk result (λ more. more ≤ length before.old) }
    ensures reads { R.is_ready replay.new.readings }
    ensures made_for { R.made_for replay.new.readings ≡ replay.new.rules.now }
    ensures progress { IsProgressOf replay.new.rules.now replay.new.progress }
{
    let rules = replay.rules();
    let last = replay.last();
    match header.read_next_row(alloc, line, &last, &rules.start, written, inputs) {
        Ok(Some(moment)) => {
            // Its seconds lie in the years 1 to 9999, as those of a row have to.
            let _ = moment.seconds();
            if let Err(stop) = replay.row(moment, inputs) {
                return Err(row_stop(alloc, rules.names.as_slice(), number, &stop));
            }
            let more = changes(before, replay.settings());
            before.copy_from_slice(replay.settings());
            Ok(more)
        }
        Ok(None) => Ok(0),
        Err(TraceEnd::Fault(cause)) => Err(fault(alloc, number, cause)),
        Err(TraceEnd::NoMemory) => Err(Complaint::OutOfMemory),
    }
}

/// How many of some settings are other numbers than those before.
fn changes(before: &[Frac], now: &[Frac]) -> u64
    requires each { length now.now ≡ length before.now }
    ensures value { result ≡ changes_of before.now now.now }
    ensures most { result ≤ length before.now }
{
    let mut count: u64 = 0;
    for at in (0..before.len()).rev() {
        if !is_same(&before[at], &now[at]) {
            count += 1;
        }
    }
    count
}

/// Whether two are the same number.
#[tactic(auto, unfolding(exact_fraction::specs::Order::same, exact_fraction::specs::Order::compares))]
fn is_same(one: &Frac, other: &Frac) -> bool
    ensures { result ≡ same one.now other.now }
{
    one.cmp(other).is_eq()
}
