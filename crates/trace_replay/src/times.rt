//! The start, the step and the gap of a row, and whether it is due.
ghost use Rattle.std.specs.Prelude.{◌≡◌, ◌<◌, ◌^◌, unsigned_abs};
ghost use Rattle.exact_fraction.specs.Number.{whole as whole_number};
ghost use Rattle.rule_types.specs.Fitting.{IsStep};
ghost use Rattle.rule_meaning.specs.History.{is_due_after};
ghost use Rattle.rule_meaning.specs.Replay.{start_or, step_since};
ghost use Rattle.replay_meaning.specs.Kept.{gap_since};
ghost use Rattle.trace_replay.specs.internal.Rows.{due_after};

use crate::hours::KnownHours;
use clock_values::{hours_of_step, whole};
use exact_fraction::frac::Frac;
use exact_fraction::moment::Moment;

/// The start of a row: the one that is known, else the row's own moment.
pub(crate) fn start_at(start: Option<Moment>, moment: Moment) -> Moment
    ensures { result ≡ start_or start moment }
{
    match start {
        Some(start) => start,
        None => moment,
    }
}

/// The seconds since the last row that was due, and the routing step at the first row.
pub(crate) fn step_at(routing_step: &Frac, due: Option<Moment>, moment: Moment) -> Frac
    ensures { result ≡ step_since routing_step.now due moment }
{
    match due {
        Some(last) => whole_seconds(moment.seconds() - last.seconds()),
        None => *routing_step,
    }
}

/// Whether a row is due: at least RULE_STEP has passed since the last row that was, or there was
/// none (SWMM 5.2 manual, [OPTIONS], RULE_STEP).
pub(crate) fn is_due(rule_step: &Frac, due: Option<Moment>, moment: Moment) -> bool
    ensures { result ≡ is_due_after rule_step.now due moment }
{
    match due {
        Some(last) => !whole_seconds(moment.seconds() - last.seconds()).is_less(rule_step),
        None => true,
    }
}

/// The moment of the last row that was due, after a row.
pub(crate) fn last_due(is_due: bool, moment: Moment, due: Option<Moment>) -> Option<Moment>
    ensures { result ≡ due_after is_due moment due }
{
    if is_due {
        return Some(moment);
    }
    due
}

/// The hours since the last row, and the routing step before the first one.
#[tactic(auto, unfolding(rule_meaning::specs::Condition::hours_of_step))]
pub(crate) fn gap_at(
    known: &mut KnownHours,
    routing_step: &Frac,
    last: Option<Moment>,
    moment: Moment,
) -> Frac
    requires routing_step { IsStep routing_step.now }
    ensures { result ≡ gap_since routing_step.now last moment }
{
    match last {
        Some(last) => known.hours_of(moment.seconds() - last.seconds()),
        None => hours_of_step(routing_step),
    }
}

/// So many whole seconds, of which few are more than 32 bits hold.
fn whole_seconds(seconds: i64) -> Frac
    requires fits { unsigned_abs seconds < 2 ^ 63 }
    ensures { result ≡ whole_number seconds }
{
    match i32::try_from(seconds) {
        Ok(few) => Frac::whole(few),
        Err(_) => whole(seconds),
    }
}
