//! How a printer ends: with the line on standard error that says why.
ghost use Rattle.std.specs.Prelude.{◌≡◌, [], slice_get};
ghost use Rattle.replay_text.specs.Ends.{Faulty, Stopped, name_of as name_of_option};
ghost use Rattle.replay_printer.specs.Printed.{end_line};
ghost use Rattle.replay_printer.specs.internal.Ends.{EndsWith, IsReadingStop, stop_in};
ghost use Rattle.replay_printer.specs.internal.Ends.{name_said, action_said};
ghost use Rattle.replay_printer.specs.internal.Ends.{stop_reason as reason_of, branch_of};

use byte_edge::NoMemory;
use command_outputs::{BranchWord, Place, RefusalLine, StopWord};
use rule_types::{ActionAt, Branch, NameDef, RowStop, Stop, StopCause, StopPlace};
use std::alloc::Global;
use streamed_lines::PrintEnd;
use trace_csv::TraceCause;

/// The end at a fault of a line of the trace.
pub(crate) fn fault_end(alloc: Global, line: u64, cause: TraceCause) -> PrintEnd
    ensures { EndsWith result (end_line [] (Faulty line cause)) }
{
    let place = Place::TraceLine(line);
    match RefusalLine::fault(alloc, place, cause.name(), cause.number(), b"") {
        Ok(message) => PrintEnd::Refused(message),
        Err(NoMemory) => PrintEnd::NoMemory,
    }
}

/// The end at a row that a replay answers with a stop.
pub(crate) fn row_end(alloc: Global, names: &[NameDef], line: u64, stop: &RowStop) -> PrintEnd
    requires reading { IsReadingStop (stop_in stop.now) }
    ensures { EndsWith result (end_line names.now (Stopped line (stop_in stop.now))) }
{
    match stop {
        RowStop::Stop(stop) => stop_end(alloc, names, line, stop),
        RowStop::Stopped(stop) => stop_end(alloc, names, line, stop),
    }
}

/// The end at a row whose reading stops.
fn stop_end(alloc: Global, names: &[NameDef], line: u64, stop: &Stop) -> PrintEnd
    requires reading { IsReadingStop stop.now }
    ensures { EndsWith result (end_line names.now (Stopped line stop.now)) }
{
    match stop.place {
        StopPlace::Name(name) => name_end(alloc, line, stop.cause, name_at(names, name)),
        StopPlace::Action(at) => action_end(alloc, line, at),
    }
}

/// The end at a stop at a name.
fn name_end(alloc: Global, line: u64, cause: StopCause, name: &[u8]) -> PrintEnd
    ensures { EndsWith result (name_said line cause name.now) }
{
    match RefusalLine::stop_in_name(alloc, line, stop_reason(cause), name) {
        Ok(message) => PrintEnd::Refused(message),
        Err(NoMemory) => PrintEnd::NoMemory,
    }
}

/// The end at an overflow at an action.
fn action_end(alloc: Global, line: u64, at: ActionAt) -> PrintEnd
    ensures { EndsWith result (action_said line at) }
{
    let rule = at.rule as u64 + 1;
    let action = at.action as u64 + 1;
    match RefusalLine::stop_in_rule(alloc, line, rule, branch_word(at.branch), action) {
        Ok(message) => PrintEnd::Refused(message),
        Err(NoMemory) => PrintEnd::NoMemory,
    }
}

/// The word of a stop.
fn stop_reason(cause: StopCause) -> StopWord
    ensures { result ≡ reason_of cause }
{
    match cause {
        StopCause::Overflow => StopWord::Overflow,
        StopCause::ZeroDivisor => StopWord::ZeroDivisor,
    }
}

/// The word of a branch.
fn branch_word(branch: Branch) -> BranchWord
    ensures { result ≡ branch_of branch }
{
    match branch {
        Branch::Then => BranchWord::Then,
        Branch::Otherwise => BranchWord::Else,
    }
}

/// The name at a place, and none where there is no such place.
fn name_at(names: &[NameDef], name: u32) -> &[u8]
    ensures { result.now ≡ name_of_option (slice_get names.now name) }
{
    match names.get(name as usize) {
        Some(named) => named.name.as_slice(),
        None => b"",
    }
}
