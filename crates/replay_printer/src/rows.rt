//! The lines of a trace as a replay prints them.
ghost use Rattle.std.specs.Prelude.{◌≡◌, Some, OnOk, length};
ghost use Rattle.byte_edge.specs.Lines.{Whole};
ghost use Rattle.rule_types.specs.WellFormed.{InOrder};
ghost use Rattle.streamed_lines.specs.Printers.{PrintsLine};
ghost use Rattle.trace_replay.specs.Progress.{kept_of, IsProgressOf};
ghost use Rattle.replay_printer.specs.Printing.{CanTake, rows_from};
ghost use Rattle.replay_printer.specs.internal.Headers.{PrintsHeader};

use crate::ends::{fault_end, row_end};
use byte_edge::NoMemory;
use exact_fraction::frac::Frac;
use object_index::ObjectIndex;
use replay_text::{write_header_line, write_row_line_at};
use rule_types::Rules;
use std::alloc::Global;
use streamed_lines::PrintEnd;
use trace_csv::{Header, TraceEnd, WrittenMoment};
use trace_replay::{Reads, Replay};

/// Takes a line before the header, and prints the header if it is that; None where the line has no
/// record.
pub(crate) fn take_header(
    alloc: Global,
    rules: &Rules,
    objects: &ObjectIndex,
    number: u64,
    line: &[u8],
    text: &mut Vec<u8>,
) -> Result<Option<Header>, PrintEnd>
    requires in_order { InOrder rules.now }
    ensures prints { PrintsHeader rules.now objects.now number line.now
        text.old.items text.new.items result }
{
    match Header::read(alloc, line, rules, objects) {
        Ok(Some(header)) => match write_header_line(text, rules, objects) {
            Ok(()) => Ok(Some(header)),
            Err(NoMemory) => Err(PrintEnd::NoMemory),
        },
        Ok(None) => Ok(None),
        Err(TraceEnd::Fault(cause)) => Err(fault_end(alloc, number, cause)),
        Err(TraceEnd::NoMemory) => Err(PrintEnd::NoMemory),
    }
}

/// Takes a line behind the header: replays its row and prints the settings after it. `written` is a
/// moment with its text, best that of the row before, and `inputs` has room for the inputs of a row.
pub(crate) fn take_row<R: Reads>(
    alloc: Global,
    replay: &mut Replay<'_, R>,
    header: &Header,
    written: &mut WrittenMoment,
    inputs: &mut [Option<Frac>],
    number: u64,
    line: &[u8],
    text: &mut Vec<u8>,
) -> Result<(), PrintEnd>
    requires reads { R.is_ready replay.old.readings }
    requires made_for { R.made_for replay.old.readings ≡ replay.old.rules.now }
    requires progress { IsProgressOf replay.old.rules.now replay.old.progress }
    requires ready { CanTake (R.choice replay.old.readings) replay.old.rules.now
        (R.held replay.old.readings) (Some header.now)
        (kept_of replay.old.progress) (length inputs.old) }

    ensures prints { PrintsLine
        (rows_from (R.choice replay.old.readings) replay.old.rules.now
        (R.held replay.old.readings) header.now (kept_of replay.old.progress))
        (rows_from (R.choice replay.new.readings) replay.new.rules.now
        (R.held replay.new.readings) header.now (kept_of replay.new.progress))
        (Whole line.now) number text.old.items text.new.items result }
    ensures still_ready { OnOk result (CanTake (R.choice replay.new.readings) replay.new.rules.now
        (R.held replay.new.readings) (Some header.now)
        (kept_of replay.new.progress) (length inputs.old)) }
    ensures reads { R.is_ready replay.new.readings }
    ensures made_for { R.made_for replay.new.readings ≡ replay.new.rules.now }
    ensures progress { IsProgressOf replay.new.rules.now replay.new.progress }
{
    let rules = replay.rules();
    let last = replay.last();
    match header.read_next_row(alloc, line, &last, &rules.start, written, inputs) {
        Ok(Some(moment)) => {
            // Its seconds lie in the years 1 to 9999, as those of a row have to.
            let _ = moment.seconds();
            match replay.row(moment, inputs) {
                Ok(()) => match write_row_line_at(text, written, replay.settings()) {
                    Ok(()) => Ok(()),
                    Err(NoMemory) => Err(PrintEnd::NoMemory),
                },
                Err(stop) => Err(row_end(alloc, rules.names.as_slice(), number, &stop)),
            }
        }
        Ok(None) => Ok(()),
        Err(TraceEnd::Fault(fault)) => Err(fault_end(alloc, number, fault)),
        Err(TraceEnd::NoMemory) => Err(PrintEnd::NoMemory),
    }
}
