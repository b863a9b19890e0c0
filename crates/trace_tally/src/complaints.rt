//! Why a trace is refused, as a complaint.
ghost use Rattle.std.specs.Prelude.{◌≡◌, ◌+◌, slice_get};
ghost use Rattle.command_outputs.specs.Messages.{stop_in_name_line, stop_in_rule_line};
ghost use Rattle.replay_text.specs.Ends.{name_of as name_of_option};
ghost use Rattle.trace_tally.specs.TraceRows.{fault_said, stop_said, stop_reason as reason_of};
ghost use Rattle.trace_tally.specs.TraceRows.{word_of_branch, stop_in};
ghost use Rattle.trace_tally.specs.internal.Starting.{Says};

use byte_edge::NoMemory;
use command_outputs::{BranchWord, Complaint, Place, RefusalLine, StopWord};
use rule_types::{ActionAt, Branch, NameDef, RowStop, Stop, StopCause, StopPlace};
use std::alloc::Global;
use trace_csv::TraceCause;

/// The complaint of a fault of a line of the trace.
pub(crate) fn fault(alloc: Global, line: u64, cause: TraceCause) -> Complaint
    ensures { Says (fault_said line cause) result }
{
    let place = Place::TraceLine(line);
    match RefusalLine::fault(alloc, place, cause.name(), cause.number(), b"") {
        Ok(message) => Complaint::Refused(message),
        Err(NoMemory) => Complaint::OutOfMemory,
    }
}

/// The complaint of a row that a replay answers with a stop.
pub(crate) fn row_stop(alloc: Global, names: &[NameDef], line: u64, stop: &RowStop) -> Complaint
    ensures { Says (stop_said names.now line (stop_in stop.now)) result }
{
    match stop {
        RowStop::Stop(stop) => reading_stop(alloc, names, line, stop),
        RowStop::Stopped(stop) => reading_stop(alloc, names, line, stop),
    }
}

/// The complaint of a row whose reading stops.
fn reading_stop(alloc: Global, names: &[NameDef], line: u64, stop: &Stop) -> Complaint
    ensures { Says (stop_said names.now line stop.now) result }
{
    match stop.place {
        StopPlace::Name(name) => name_stop(alloc, line, stop.cause, name_at(names, name)),
        StopPlace::Action(at) => action_stop(alloc, line, at),
    }
}

/// The complaint of a stop at a name.
fn name_stop(alloc: Global, line: u64, cause: StopCause, name: &[u8]) -> Complaint
    ensures { Says (stop_in_name_line line (reason_of cause) name.now) result }
{
    match RefusalLine::stop_in_name(alloc, line, stop_reason(cause), name) {
        Ok(message) => Complaint::Refused(message),
        Err(NoMemory) => Complaint::OutOfMemory,
    }
}

/// The complaint of an overflow at an action.
fn action_stop(alloc: Global, line: u64, at: ActionAt) -> Complaint
    ensures { Says (stop_in_rule_line line (at.rule + 1) (word_of_branch at.branch)
        (at.action + 1)) result }
{
    let rule = at.rule as u64 + 1;
    let action = at.action as u64 + 1;
    match RefusalLine::stop_in_rule(alloc, line, rule, branch_word(at.branch), action) {
        Ok(message) => Complaint::Refused(message),
        Err(NoMemory) => Complaint::OutOfMemory,
    }
}

/// The word of a stop.
fn stop_reason(cause: StopCause) -> StopWord
    ensures { result ≡ reason_of cause }
{
    match cause {
        StopCause::Overflow => StopWord::Overflow,
        StopCause::ZeroDivisor => StopWord::ZeroDivisor,
    }
}

/// The word of a branch.
fn branch_word(branch: Branch) -> BranchWord
    ensures { result ≡ word_of_branch branch }
{
    match branch {
        Branch::Then => BranchWord::Then,
        Branch::Otherwise => BranchWord::Else,
    }
}

/// The name at a place, and none where there is no such place.
fn name_at(names: &[NameDef], name: u32) -> &[u8]
    ensures { result.now ≡ name_of_option (slice_get names.now name) }
{
    match names.get(name as usize) {
        Some(named) => named.name.as_slice(),
        None => b"",
    }
}
