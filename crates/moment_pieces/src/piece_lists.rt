//! The pieces of a run of moments, within which no condition of the clock changes.
ghost use Rattle.std.specs.Prelude.{◌≡◌, ◌≤◌, ◌+ℤ◌, pos, IfOk, All};
ghost use Rattle.rule_types.specs.Fitting.{IsStep};
ghost use Rattle.rule_types.specs.WellFormed.{WellFormed, IsRoutingStep};
ghost use Rattle.moment_pieces.specs.Pieces.{piece_firsts, IsCuts};
ghost use Rattle.clock_values.specs.Steps.{IsStepInHours};
ghost use Rattle.moment_pieces.specs.internal.Spans.{IsSpan, AreDaily, AreStarts, firsts_from};
ghost use Rattle.moment_pieces.specs.internal.Spans.{day_scale, run_scale};
ghost use Rattle.moment_pieces.specs.internal.Starts.{IsDaily, AreSingle};
ghost use Rattle.moment_pieces.specs.internal.Turns.{HalfStepFits};

use crate::lists::{numbers_apart, numbers_of};
use crate::spans::{Moments, Span, moment_at, span_of};
use crate::starts::Starts;
use crate::turns::{Scale, put, put_used};
use byte_edge::NoMemory;
use clock_values::hours_of_step;
use exact_fraction::frac::Frac;
use exact_fraction::moment::Moment;
use list_types::Items;
use rule_types::Rules;
use std::alloc::Global;
use std::collections::BTreeSet;

/// The pieces of a run of moments.
#[derive(Debug, Drop, PartialEq, Eq)]
pub struct Cuts {
    /// How many pieces there are.
    pub count: u64,
    /// The first moment of each piece, in order; empty where there are more than were asked for.
    pub firsts: Items<Moment>,
}

/// The pieces of the moments from `from` to `to`, for the rules of the numbers in `used`, in a
/// simulation that begins at `start` with this step in seconds. A piece begins at the first moment,
/// at each midnight, and where a condition of a key of the clock against a number changes. The
/// first moments are listed where there are at most `most` pieces; the count is exact also where
/// there are more. A number in `used` of which there is no rule adds nothing. NoMemory is the one
/// error. It takes time by the conditions of these rules and the listed pieces, each times a
/// logarithm, and memory by the numbers of both.
pub fn moment_cuts(
    alloc: Global,
    rules: &Rules,
    used: &[u32],
    start: Moment,
    from: Moment,
    to: Moment,
    step: Frac,
    most: u64,
) -> Result<Cuts, NoMemory>
    requires rules { WellFormed rules.now }
    requires step { IsRoutingStep step }
    ensures cuts { IfOk result
        (IsCuts (piece_firsts rules.now used.now step start from to) most) }
{
    cuts_between(
        alloc,
        rules,
        used,
        &Moments { start, from, to },
        &step,
        most,
    )
}

/// The pieces of a run of moments, for the rules of the numbers in `used`.
pub(crate) fn cuts_between(
    alloc: Global,
    rules: &Rules,
    used: &[u32],
    run: &Moments,
    step: &Frac,
    most: u64,
) -> Result<Cuts, NoMemory>
    requires fit { All (λ rule. All HalfStepFits rule.conditions) rules.now.rules }
    requires step { IsStep step.now }
    ensures cuts { IfOk result (IsCuts
        (piece_firsts rules.now used.now step.now run.now.start run.now.from run.now.to) most) }
{
    let hours = hours_of_step(step);
    let Some(span) = span_of(run) else {
        return Ok(Cuts {
            count: 0,
            firsts: Items::new(alloc),
        });
    };
    let starts = starts_of(alloc, rules, used, &hours, &span)?;
    cuts_of(alloc, &starts, &span, most)
}

/// The numbers at which pieces begin, for the rules of some numbers.
fn starts_of(
    alloc: Global,
    rules: &Rules,
    used: &[u32],
    hours: &Frac,
    span: &Span,
) -> Result<Starts, NoMemory>
    requires step { IsStepInHours hours.now }
    requires fit { All (λ rule. All HalfStepFits rule.conditions) rules.now.rules }
    ensures starts { IfOk result (AreStarts rules.now used.now hours.now span.now) }
{
    let daily = daily_of(alloc, rules, used, hours)?;
    let scale = run_scale(hours, span);
    let mut set = BTreeSet::new(alloc);
    put_used(&mut set, rules, used, &scale)?;
    let singles = numbers_apart(alloc, &set, &daily)?;
    Ok(Starts { daily, singles })
}

/// The scale of a run.
fn run_scale(hours: &Frac, span: &Span) -> Scale
    ensures value { result ≡ run_scale hours.now span.now }
{
    Scale {
        daily: false,
        step: *hours,
        shift: span.start,
        limit: span.last,
    }
}

/// The scale of each day.
fn day_scale(hours: &Frac) -> Scale
    ensures value { result ≡ day_scale hours.now }
{
    Scale {
        daily: true,
        step: *hours,
        shift: 0,
        limit: 86_399,
    }
}

/// The seconds of each day at which pieces begin: midnight, and where a condition of CLOCKTIME
/// changes.
fn daily_of(alloc: Global, rules: &Rules, used: &[u32], hours: &Frac) -> Result<Vec<u64>, NoMemory>
    requires step { IsStepInHours hours.now }
    requires fit { All (λ rule. All HalfStepFits rule.conditions) rules.now.rules }
    ensures daily { IfOk result (λ daily. AreDaily rules.now used.now hours.now daily.items) }
{
    let scale = day_scale(hours);
    let mut set = BTreeSet::new(alloc);
    put(&mut set, 0)?;
    put_used(&mut set, rules, used, &scale)?;
    numbers_of(alloc, &set)
}

/// The pieces that begin at the first second of a run and at some numbers.
fn cuts_of(alloc: Global, starts: &Starts, span: &Span, most: u64) -> Result<Cuts, NoMemory>
    requires daily { IsDaily starts.now.daily.items }
    requires singles { AreSingle starts.now.daily.items starts.now.singles.items }
    requires span { IsSpan span.now }
    ensures cuts { IfOk result (IsCuts
        (firsts_from starts.now.daily.items starts.now.singles.items span.now) most) }
{
    let count = starts.count(span.first, span.last) + 1;
    if most < count {
        return Ok(Cuts {
            count,
            firsts: Items::new(alloc),
        });
    }
    let firsts = firsts_of(alloc, starts, span)?;
    Ok(Cuts {
        count,
        firsts: Items::from_vec(firsts),
    })
}

/// The first moments of these pieces.
fn firsts_of(alloc: Global, starts: &Starts, span: &Span) -> Result<Vec<Moment>, NoMemory>
    requires daily { IsDaily starts.now.daily.items }
    requires singles { AreSingle starts.now.daily.items starts.now.singles.items }
    requires span { IsSpan span.now }
    ensures firsts { IfOk result (λ firsts.
        firsts.items ≡ firsts_from starts.now.daily.items starts.now.singles.items span.now) }
{
    let mut firsts = Vec::new(alloc);
    let mut at = span.first;
    firsts.push(moment_at(span, at))?;
    'pieces: while let Some(next) = starts.next_up_to(at, span.last) {
        firsts.push(moment_at(span, next))?;
        at = next;
    }
    Ok(firsts)
}
