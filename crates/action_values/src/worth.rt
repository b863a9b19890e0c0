//! The values of actions.
ghost use Rattle.std.specs.Prelude.{◌≡◌, Some, Ok, IsSomeAnd, length};
ghost use Rattle.exact_fraction.specs.Number.{Rational};
ghost use Rattle.rule_types.specs.Fitting.{IsStep, ActionReady};
ghost use Rattle.rule_types.specs.Tables.{curve_at, series_at, IsPointList};
ghost use Rattle.rule_types.specs.WellFormed.{has_rate};
ghost use Rattle.rule_meaning.specs.History.{memory_left};
ghost use Rattle.rule_meaning.specs.Memories.{memory_of};
ghost use Rattle.rule_meaning.specs.Reading.{conditions_at};
ghost use Rattle.rule_meaning.specs.Worth.{controller_of, set_point_of, old_target, is_pump};
ghost use Rattle.rule_meaning.specs.Worth.{value_stepped, curve_worth, series_worth, pid_worth};
ghost use Rattle.rule_meaning.specs.Worth.{what_worth, capped, worth};
ghost use Rattle.action_values.specs.Links.{IsSound, IsLink};

use crate::link::LinkFacts;
use crate::sides::{controller_at, set_point_at};
use clock_values::minutes_of;
use curves_series::Tables;
use exact_fraction::error::Overflow;
use exact_fraction::frac::Frac;
use pid_action::pid_step;
use premise_eval::Values;
use rule_types::{Action, ActionAt, CurveNo, PidMemory, PidSet, Rules, SeriesNo, State, What};

/// The value of an action: on a link with a rate a value above 1 counts as 1.
#[tactic(auto, unfolding(rule_meaning::specs::Worth::worth))]
pub(crate) fn worth(
    rules: &Rules,
    tables: &Tables,
    state: &State,
    values: &Values,
    before: &[PidMemory],
    at: &ActionAt,
    action: &Action,
    facts: &LinkFacts,
) -> Result<Frac, Overflow>
    requires sound { IsSound rules.now state.now values.now }
    requires link { IsLink rules.now state.now action.now.link facts.now }
    requires ready { ActionReady tables.now (length before.now) action.now }
    ensures value { result ≡ worth rules.now tables.now state.now (memory_of before.now)
        (conditions_at rules.now.rules at.now) action.now }
{
    let value = what_worth(rules, tables, state, values, before, at, action, facts)?;
    Ok(capped(&facts.rate, value))
}

/// A value on a link of this rate.
pub(crate) fn capped(rate: &Frac, value: Frac) -> Frac
    ensures value { Ok result ≡ capped rate.now (Ok value) }
{
    if rate.is_zero() {
        return value;
    }
    if Frac::zero().is_less(rate) {
        return Frac::one().min(value);
    }
    value
}

/// The value of an action before the rate of its link is asked.
#[tactic(auto, unfolding(rule_meaning::specs::Worth::what_worth, rule_meaning::specs::Worth::rule_pid),)]
fn what_worth(
    rules: &Rules,
    tables: &Tables,
    state: &State,
    values: &Values,
    before: &[PidMemory],
    at: &ActionAt,
    action: &Action,
    facts: &LinkFacts,
) -> Result<Frac, Overflow>
    requires sound { IsSound rules.now state.now values.now }
    requires link { IsLink rules.now state.now action.now.link facts.now }
    requires ready { ActionReady tables.now (length before.now) action.now }
    ensures value { result ≡ what_worth rules.now tables.now state.now (memory_of before.now)
        (conditions_at rules.now.rules at.now) action.now.link action.now.what }
{
    match &action.what {
        What::Constant(q) => Ok(*q),
        What::Curve(curve) => {
            let controller = controller_at(rules, state, values, at);
            curve_worth(tables, curve, &controller, &facts.target)
        }
        What::Series(series) => series_worth(tables, series, state),
        What::Pid(set, number) => {
            let mut memory = before[*number as usize];
            rule_pid(
                rules,
                state,
                values,
                at,
                action.link,
                facts,
                set,
                &mut memory,
            )
        }
    }
}

/// The value of a curve at its controller, and where that is missing the old target.
fn curve_worth(
    tables: &Tables,
    curve: &CurveNo,
    controller: &Option<Frac>,
    old: &Frac,
) -> Result<Frac, Overflow>
    requires held { IsSomeAnd (curve_at tables.now curve.now.index)
        (λ table. IsPointList table.points) }
    ensures value { result ≡ curve_worth (curve_at tables.now curve.now.index) controller.now old.now }
{
    match controller {
        Some(x) => tables.curve_value(*curve, *x),
        None => Ok(*old),
    }
}

/// The value of a series at the moment.
fn series_worth(tables: &Tables, series: &SeriesNo, state: &State) -> Result<Frac, Overflow>
    requires held { IsSomeAnd (series_at tables.now series.now.index)
        (λ table. IsPointList table.points) }
    ensures value { (old : Rational)
        → result ≡ series_worth (series_at tables.now series.now.index) state.now old }
{
    tables.series_value(*series, state.start, state.moment)
}

/// A step of a PID action from this memory.
pub(crate) fn rule_pid(
    rules: &Rules,
    state: &State,
    values: &Values,
    at: &ActionAt,
    link: u32,
    facts: &LinkFacts,
    set: &PidSet,
    memory: &mut PidMemory,
) -> Result<Frac, Overflow>
    requires sound { IsSound rules.now state.now values.now }
    requires link { IsLink rules.now state.now link facts.now }
    ensures value { result ≡ value_stepped (pid_worth set.now
        (controller_of rules.now state.now (conditions_at rules.now.rules at.now))
        (set_point_of rules.now state.now (conditions_at rules.now.rules at.now))
        (old_target rules.now state.now link) state.now.step (is_pump rules.now link) memory.old) }
    ensures memory { memory.new ≡ memory_left memory.old (Some (pid_worth set.now
        (controller_of rules.now state.now (conditions_at rules.now.rules at.now))
        (set_point_of rules.now state.now (conditions_at rules.now.rules at.now))
        (old_target rules.now state.now link) state.now.step (is_pump rules.now link) memory.old)) }
{
    let controller = controller_at(rules, state, values, at);
    let set_point = set_point_at(rules, state, values, at);
    pid_worth(set, &controller, &set_point, facts, &state.step, memory)
}

/// A step of a PID action; where its controller or its set point is missing, the old target, and
/// the memory stays.
fn pid_worth(
    set: &PidSet,
    controller: &Option<Frac>,
    set_point: &Option<Frac>,
    facts: &LinkFacts,
    step: &Frac,
    memory: &mut PidMemory,
) -> Result<Frac, Overflow>
    requires step { IsStep step.now }
    ensures value { result ≡ value_stepped (pid_worth set.now controller.now set_point.now
        facts.now.target step.now facts.now.pump memory.old) }
    ensures memory { memory.new ≡ memory_left memory.old (Some (pid_worth set.now controller.now
        set_point.now facts.now.target step.now facts.now.pump memory.old)) }
{
    let Some(x) = controller else {
        return Ok(facts.target);
    };
    let Some(point) = set_point else {
        return Ok(facts.target);
    };
    let minutes = minutes_of(step);
    pid_step(*set, *point, *x, facts.target, minutes, facts.pump, memory)
}
