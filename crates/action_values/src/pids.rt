//! The pass over the listed PID actions.
ghost use Rattle.std.specs.Prelude.{◌≡◌, ℕ, Option, if◌then◌else◌, Some, None, All, length, slice_set, ◌<◌};
ghost use Rattle.rule_types.specs.Fitting.{PairCounted, PidFits};
ghost use Rattle.rule_types.specs.declared.stop.Stop.{Stop as AnyStop};
ghost use Rattle.rule_meaning.specs.History.{is_pid_action, memory_left, memory_listed};
ghost use Rattle.rule_meaning.specs.Memories.{memory_of};
ghost use Rattle.rule_meaning.specs.Reading.{overflow_at, overflow_or, pid_at, pids_stop};
ghost use Rattle.rule_meaning.specs.Reading.{conditions_at};
ghost use Rattle.rule_meaning.specs.Worth.{rule_pid};
ghost use Rattle.rule_meaning.specs.Settled.{action_at};
ghost use Rattle.action_values.specs.Links.{IsSound};

use crate::link::facts_of;
use crate::worth::rule_pid;
use premise_eval::Values;
use rule_types::{
    Action, ActionAt, PidMemory, PidSet, Rules, State, Stop, StopCause, StopPlace, What,
};

/// Advances the PID actions among listed pairs: all use the memories before, and leave theirs in
/// `after`. The first that overflows is the answer.
pub(crate) fn advance_all(
    rules: &Rules,
    state: &State,
    values: &Values,
    pairs: &[ActionAt],
    before: &[PidMemory],
    after: &mut [PidMemory],
) -> Option<Stop>
    requires sound { IsSound rules.now state.now values.now }
    requires counted { All (PairCounted rules.now.rules (length before.now)) pairs.now }
    requires same { after.old ≡ before.now }
    ensures stop { result ≡ pids_stop rules.now state.now (memory_of before.now) pairs.now }
    ensures memories { (number : ℕ) → memory_of after.new number
        ≡ memory_listed rules.now state.now (memory_of before.now) number pairs.now }
{
    let mut stop = None;
    for i in (0..pairs.len()).rev() {
        let over = advance(rules, state, values, &pairs[i], before, after);
        stop = stop_at(over, &pairs[i], &stop);
    }
    stop
}

/// The overflow at a place, or a later stop.
fn stop_at(over: bool, at: &ActionAt, later: &Option<Stop>) -> Option<Stop>
    ensures value { result ≡ (if over then Some (overflow_at at.now) else later.now) }
{
    if over {
        return Some(Stop {
            place: StopPlace::Action(*at),
            cause: StopCause::Overflow,
        });
    }
    *later
}

/// Advances the action at a place, where it is a PID action, and tells whether it overflows.
fn advance(
    rules: &Rules,
    state: &State,
    values: &Values,
    at: &ActionAt,
    before: &[PidMemory],
    after: &mut [PidMemory],
) -> bool
    requires sound { IsSound rules.now state.now values.now }
    requires counted { PairCounted rules.now.rules (length before.now) at.now }
    requires each { length after.old ≡ length before.now }
    ensures over { (later : Option AnyStop)
        → overflow_or at.now (pid_at rules.now state.now (memory_of before.now) at.now) later
        ≡ (if result then Some (overflow_at at.now) else later) }
    ensures memories { (number : ℕ) → memory_of after.new number
        ≡ (if is_pid_action number (action_at rules.now.rules at.now)
        then memory_left (memory_of before.now number)
        (pid_at rules.now state.now (memory_of before.now) at.now)
        else memory_of after.old number) }
{
    match rules.action_at(at) {
        Some(action) => advance_action(rules, state, values, at, action, before, after),
        None => false,
    }
}

/// The same of the action that stands at the place.
fn advance_action(
    rules: &Rules,
    state: &State,
    values: &Values,
    at: &ActionAt,
    action: &Action,
    before: &[PidMemory],
    after: &mut [PidMemory],
) -> bool
    requires sound { IsSound rules.now state.now values.now }
    requires is { action_at rules.now.rules at.now ≡ Some action.now }
    requires counted { PidFits (length before.now) action.now.what }
    requires each { length after.old ≡ length before.now }
    ensures over { (later : Option AnyStop)
        → overflow_or at.now (pid_at rules.now state.now (memory_of before.now) at.now) later
        ≡ (if result then Some (overflow_at at.now) else later) }
    ensures memories { (number : ℕ) → memory_of after.new number
        ≡ (if is_pid_action number (action_at rules.now.rules at.now)
        then memory_left (memory_of before.now number)
        (pid_at rules.now state.now (memory_of before.now) at.now)
        else memory_of after.old number) }
{
    match &action.what {
        What::Pid(set, number) => {
            advance_pid(
                rules,
                state,
                values,
                at,
                action.link,
                set,
                *number,
                before,
                after,
            )
        }
        What::Constant(_) => false,
        What::Curve(_) => false,
        What::Series(_) => false,
    }
}

/// Advances a PID action, and tells whether it overflows.
#[tactic(auto, unfolding(rule_meaning::specs::Worth::rule_pid))]
fn advance_pid(
    rules: &Rules,
    state: &State,
    values: &Values,
    at: &ActionAt,
    link: u32,
    set: &PidSet,
    number: u32,
    before: &[PidMemory],
    after: &mut [PidMemory],
) -> bool
    requires sound { IsSound rules.now state.now values.now }
    requires within { number < length before.now }
    requires each { length after.old ≡ length before.now }
    ensures over { (later : Option AnyStop) → overflow_or at.now
        (Some (rule_pid rules.now state.now (memory_of before.now)
        (conditions_at rules.now.rules at.now) link set.now number)) later
        ≡ (if result then Some (overflow_at at.now) else later) }
    ensures memories { after.new ≡ slice_set after.old number
        (memory_left (memory_of before.now number)
        (Some (rule_pid rules.now state.now (memory_of before.now)
        (conditions_at rules.now.rules at.now) link set.now number))) }
{
    let facts = facts_of(rules, state, link);
    let mut memory = before[number as usize];
    let found = rule_pid(rules, state, values, at, link, &facts, set, &mut memory);
    after[number as usize] = memory;
    match found {
        Ok(_) => false,
        Err(_) => true,
    }
}
