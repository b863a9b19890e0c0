//! The replay of rules over a trace that is held in memory.
ghost use Rattle.std.specs.Prelude.{◌≡◌, ◌<◌, ◌≤◌, ◌^◌, [], map, length, IfOk};
ghost use Rattle.byte_edge.specs.Lines.{lines as lines_of, capped};
ghost use Rattle.replay_meaning.specs.Standing.{CanReplay};
ghost use Rattle.trace_tally.specs.TraceRows.{trace_rows, rows_from};
ghost use Rattle.trace_tally.specs.Tallies.{tallied};
ghost use Rattle.trace_tally.specs.Giving.{Gives, tally_seen};

use crate::byte_lines::first_line;
use crate::complaints::fault;
use crate::rows::replay_rows;
use byte_edge::NoMemory;
use command_outputs::{Complaint, TRACE_FILE};
use exact_fraction::frac::Frac;
use object_index::ObjectIndex;
use rule_types::Rules;
use std::alloc::Global;
use trace_csv::{Header, TraceCause, TraceEnd};
use trace_replay::{Reads, Replay};

/// What a replay came to.
#[derive(Drop)]
pub struct Replayed {
    /// How many pairs of a row and a controlled link there are whose setting changed there.
    pub switches: u64,
    /// The settings of the controlled links after the last row, in link order.
    pub settings: Vec<Frac>,
}

/// Replays rules over a trace with these bytes, by some reading.
pub fn replay_trace<R: Reads>(
    alloc: Global,
    rules: &Rules,
    objects: &ObjectIndex,
    readings: R,
    trace: &[u8],
) -> Result<Replayed, Complaint>
    requires few { length trace.now ≤ 2 ^ 32 }
    requires can_replay { CanReplay (R.choice readings) rules.now (R.held readings) }
    requires made_for { R.made_for readings ≡ rules.now }
    requires reads { R.is_ready readings }
    ensures gives { Gives
        (tallied (R.choice readings) rules.now (R.held readings)
        (trace_rows (R.choice readings) rules.now (R.held readings) objects.now
        (map (capped 65536) (lines_of trace.now))))
        tally_seen result }
{
    let Some(first) = first_line(trace, TRACE_FILE.limit) else {
        return Err(fault(alloc, 0, TraceCause::NoHeader));
    };
    let Some(line) = first.line else {
        return Err(fault(alloc, 1, TraceCause::LineTooLong));
    };
    match Header::read(alloc, line, rules, objects) {
        Ok(Some(header)) => replay_under(alloc, rules, readings, &header, first.rest),
        Ok(None) => Err(fault(alloc, 0, TraceCause::NoHeader)),
        Err(TraceEnd::Fault(cause)) => Err(fault(alloc, 1, cause)),
        Err(TraceEnd::NoMemory) => Err(Complaint::OutOfMemory),
    }
}

/// Replays rules over the lines behind a header.
fn replay_under<R: Reads>(
    alloc: Global,
    rules: &Rules,
    readings: R,
    header: &Header,
    lines: &[u8],
) -> Result<Replayed, Complaint>
    requires few { length lines.now < 2 ^ 32 }
    requires can_replay { CanReplay (R.choice readings) rules.now (R.held readings) }
    requires made_for { R.made_for readings ≡ rules.now }
    requires reads { R.is_ready readings }
    requires columns { header.now.inputs ≡ length rules.now.input_keys }
    ensures gives { Gives
        (tallied (R.choice readings) rules.now (R.held readings)
        (rows_from (R.choice readings) rules.now (R.held readings) header.now [] 2
        (map (capped 65536) (lines_of lines.now))))
        tally_seen result }
{
    let Ok(mut replay) = Replay::new(alloc, rules, readings) else {
        return Err(Complaint::OutOfMemory);
    };
    let Ok(mut inputs) = no_inputs(alloc, header) else {
        return Err(Complaint::OutOfMemory);
    };
    let Ok(mut settings) = copied(alloc, replay.settings()) else {
        return Err(Complaint::OutOfMemory);
    };
    match replay_rows(
        alloc,
        &mut replay,
        header,
        &mut inputs,
        &mut settings,
        lines,
    ) {
        Ok(switches) => Ok(Replayed { switches, settings }),
        Err(complaint) => Err(complaint),
    }
}

/// Room for the inputs of a row.
fn no_inputs(alloc: Global, header: &Header) -> Result<Vec<Option<Frac>>, NoMemory>
    ensures { IfOk result (λ inputs. length inputs.items ≡ header.now.inputs) }
{
    let inputs = vec![in alloc; None; header.input_count()]?;
    Ok(inputs)
}

/// A copy of settings.
fn copied(alloc: Global, settings: &[Frac]) -> Result<Vec<Frac>, NoMemory>
    ensures { IfOk result (λ copy. copy.items ≡ settings.now) }
{
    let mut copy = vec![in alloc; Frac::zero(); settings.len()]?;
    copy.copy_from_slice(settings);
    Ok(copy)
}
