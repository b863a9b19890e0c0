//! The seconds at which the conditions of rules change.
ghost use Rattle.std.specs.Prelude.{◌≡◌, ◌==◌, ◌+ℤ◌, ◌-ℤ◌, ◌≤ℤ◌, ◌&&◌, nat_le, pos, neg_ℤ, OnOk};
ghost use Rattle.std.specs.Prelude.{All, Some, slice_get, IsTrue};
ghost use Rattle.std.specs.List.{list_any};
ghost use Rattle.std.specs.Ordering.{int_eq};
ghost use Rattle.clock_values.specs.Steps.{IsStepInHours};
ghost use Rattle.clock_values.specs.Windows.{turns_at, window_turns};
ghost use Rattle.moment_pieces.specs.internal.Turns.{Adds, is_counted, value_turns, sides_turn};
ghost use Rattle.moment_pieces.specs.internal.Turns.{condition_turns, rule_turns, used_turn};
ghost use Rattle.moment_pieces.specs.internal.Turns.{HalfStepFits, IsNumberAt};
ghost use Rattle.rule_types.specs.declared.condition.Side.TheVariants as side;
ghost use Rattle.rule_types.specs.declared.key.Key.TheVariants.{Clock};
ghost use Rattle.rule_types.specs.WellFormed.{IsTimeValue};

use crate::sides::side_of;
use byte_edge::NoMemory;
use clock_values::{Window, window_of};
use exact_fraction::frac::Frac;
use list_types::Items;
use rule_types::{ClockAttr, Condition, Key, NameDef, Right, Rules, Side};
use std::collections::BTreeSet;

/// How the seconds at which conditions change are counted: those of CLOCKTIME from the midnight of
/// each day, or those of TIME from the midnight of the first day.
#[derive(Clone, Copy)]
pub(crate) struct Scale {
    /// Whether the scale is that of a day, for CLOCKTIME; else it is for TIME.
    pub(crate) daily: bool,
    /// The step in hours.
    pub(crate) step: Frac,
    /// The number of the second 0.
    pub(crate) shift: i64,
    /// The last number that is counted.
    pub(crate) limit: u64,
}

/// Enters the numbers at which conditions of the rules of some numbers change. NoMemory is the one
/// error.
#[tactic(auto, unfolding(crate::specs::internal::Turns::used_turn))]
pub(crate) fn put_used(
    set: &mut BTreeSet<u64>,
    rules: &Rules,
    used: &[u32],
    scale: &Scale,
) -> Result<(), NoMemory>
    requires step { IsStepInHours scale.now.step }
    requires fit { All (λ rule. All HalfStepFits rule.conditions) rules.now.rules }
    ensures adds { OnOk result (Adds set.old.keys set.new.keys
        (λ m. used_turn rules.now used.now scale.now m && nat_le m scale.now.limit)) }
{
    let mut left = used;
    'rules: while let Some((number, others)) = left.split_first() {
        put_rule(set, rules, *number, scale)?;
        left = others;
    }
    Ok(())
}

/// The same of one rule, if there is one of this number.
fn put_rule(
    set: &mut BTreeSet<u64>,
    rules: &Rules,
    number: u32,
    scale: &Scale,
) -> Result<(), NoMemory>
    requires step { IsStepInHours scale.now.step }
    requires fit { All (λ rule. All HalfStepFits rule.conditions) rules.now.rules }
    ensures adds { OnOk result (Adds set.old.keys set.new.keys
        (λ m. rule_turns rules.now.names scale.now m (slice_get rules.now.rules number)
        && nat_le m scale.now.limit)) }
{
    match rules.rules.get(number as usize) {
        Some(rule) => put_conditions(set, &rules.names, rule.conditions.as_slice(), scale),
        None => Ok(()),
    }
}

/// The same of some conditions.
fn put_conditions(
    set: &mut BTreeSet<u64>,
    names: &Items<NameDef>,
    conditions: &[Condition],
    scale: &Scale,
) -> Result<(), NoMemory>
    requires step { IsStepInHours scale.now.step }
    requires fit { All HalfStepFits conditions.now }
    ensures adds { OnOk result (Adds set.old.keys set.new.keys
        (λ m. list_any (condition_turns names.now scale.now m) conditions.now
        && nat_le m scale.now.limit)) }
{
    let mut left = conditions;
    'conditions: while let Some((condition, others)) = left.split_first() {
        put_condition(set, names, condition, scale)?;
        left = others;
    }
    Ok(())
}

/// The same of one condition.
fn put_condition(
    set: &mut BTreeSet<u64>,
    names: &Items<NameDef>,
    condition: &Condition,
    scale: &Scale,
) -> Result<(), NoMemory>
    requires step { IsStepInHours scale.now.step }
    requires fit { HalfStepFits condition.now }
    ensures adds { OnOk result (Adds set.old.keys set.new.keys
        (λ m. condition_turns names.now scale.now m condition.now
        && nat_le m scale.now.limit)) }
{
    let left = side_of(names, &condition.left);
    match &left {
        Side::Key(key) => put_key(set, condition, key, scale),
        Side::Expr(_) => Ok(()),
    }
}

/// The same of a condition on a key.
fn put_key(
    set: &mut BTreeSet<u64>,
    condition: &Condition,
    key: &Key,
    scale: &Scale,
) -> Result<(), NoMemory>
    requires step { IsStepInHours scale.now.step }
    requires fit { HalfStepFits condition.now }
    ensures adds { OnOk result (Adds set.old.keys set.new.keys
        (λ m. sides_turn scale.now condition.now m (side.Key key.now) condition.now.right
        && nat_le m scale.now.limit)) }
{
    match key {
        Key::Clock(attribute) => put_clock(set, condition, attribute, scale),
        Key::Object(_, _) => Ok(()),
    }
}

/// The same of a condition on an attribute of the clock.
fn put_clock(
    set: &mut BTreeSet<u64>,
    condition: &Condition,
    attribute: &ClockAttr,
    scale: &Scale,
) -> Result<(), NoMemory>
    requires step { IsStepInHours scale.now.step }
    requires fit { HalfStepFits condition.now }
    ensures adds { OnOk result (Adds set.old.keys set.new.keys
        (λ m. sides_turn scale.now condition.now m (side.Key (Clock attribute.now))
        condition.now.right && nat_le m scale.now.limit)) }
{
    match &condition.right {
        Right::Value(other) => put_value(set, condition, attribute, other, scale),
        Right::Key(_) => Ok(()),
    }
}

/// The same of a condition on an attribute of the clock against a number.
#[tactic(auto, unfolding(crate::specs::internal::Turns::value_turns))]
fn put_value(
    set: &mut BTreeSet<u64>,
    condition: &Condition,
    attribute: &ClockAttr,
    other: &Frac,
    scale: &Scale,
) -> Result<(), NoMemory>
    requires value { IsTrue condition.now.half_step → IsTimeValue other.now }
    requires step { IsStepInHours scale.now.step }
    ensures adds { OnOk result (Adds set.old.keys set.new.keys
        (λ m. value_turns scale.now condition.now m attribute.now other.now
        && nat_le m scale.now.limit)) }
{
    if !is_counted(scale.daily, attribute) {
        return Ok(());
    }
    put_window(set, &window_of(condition, &scale.step, other), scale)
}

/// Whether an attribute is counted on a scale.
fn is_counted(daily: bool, attribute: &ClockAttr) -> bool
    ensures value { result ≡ is_counted daily attribute.now }
{
    match attribute {
        ClockAttr::ClockTime => daily,
        ClockAttr::Time => !daily,
        ClockAttr::Date | ClockAttr::Month | ClockAttr::Day | ClockAttr::DayOfYear => false,
    }
}

/// Enters the numbers of the seconds at which the condition of a window changes.
fn put_window(set: &mut BTreeSet<u64>, window: &Window, scale: &Scale) -> Result<(), NoMemory>
    ensures adds { OnOk result (Adds set.old.keys set.new.keys
        (λ m. window_turns window.now (pos m -ℤ scale.now.shift) && nat_le m scale.now.limit)) }
{
    match &window.high {
        None => put_second(set, &window.low, scale),
        Some(high) => put_ends(set, &window.low, high, scale),
    }
}

/// Enters the numbers of both ends of a window that is not empty.
fn put_ends(set: &mut BTreeSet<u64>, low: &i128, high: &i128, scale: &Scale) -> Result<(), NoMemory>
    ensures adds { OnOk result (Adds set.old.keys set.new.keys
        (λ m. turns_at low.now (Some high.now) (pos m -ℤ scale.now.shift)
        && nat_le m scale.now.limit)) }
{
    if *high <= *low {
        return Ok(());
    }
    put_second(set, low, scale)?;
    put_second(set, high, scale)
}

/// Enters the number of a second, where it is counted.
fn put_second(set: &mut BTreeSet<u64>, second: &i128, scale: &Scale) -> Result<(), NoMemory>
    ensures adds { OnOk result (Adds set.old.keys set.new.keys
        (λ m. int_eq (pos m -ℤ scale.now.shift) second.now && nat_le m scale.now.limit)) }
{
    match number_at(second, scale) {
        Some(number) => put(set, number),
        None => Ok(()),
    }
}

/// The number of a second on a scale, where it is counted.
fn number_at(second: &i128, scale: &Scale) -> Option<u64>
    ensures value { IsNumberAt second.now scale.now result }
{
    let first = first_counted(scale);
    let last = last_counted(scale);
    if *second < first {
        return None;
    }
    if last < *second {
        return None;
    }
    Some(number_of(second, scale))
}

/// The number of a second that is counted.
fn number_of(second: &i128, scale: &Scale) -> u64
    requires first { neg_ℤ scale.now.shift ≤ℤ second.now }
    requires last { second.now ≤ℤ (pos scale.now.limit -ℤ scale.now.shift) }
    ensures value { pos result ≡ second.now +ℤ scale.now.shift }
{
    (*second + scale.shift as i128) as u64
}

/// The second of the number 0.
fn first_counted(scale: &Scale) -> i128
    ensures value { result ≡ neg_ℤ scale.now.shift }
{
    -(scale.shift as i128)
}

/// The second of the last number that is counted.
fn last_counted(scale: &Scale) -> i128
    ensures value { result ≡ pos scale.now.limit -ℤ scale.now.shift }
{
    scale.limit as i128 - scale.shift as i128
}

/// Enters a number.
pub(crate) fn put(set: &mut BTreeSet<u64>, number: u64) -> Result<(), NoMemory>
    ensures adds { OnOk result (Adds set.old.keys set.new.keys (λ m. m == number)) }
{
    match set.insert(number) {
        Ok(_) => Ok(()),
        Err(_) => Err(NoMemory),
    }
}
