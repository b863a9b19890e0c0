//! The numbers at which conditions cut the range of a key (SWMM 5.2 manual, [CONTROLS]).
ghost use Rattle.std.specs.Prelude.{◌≡◌, ◌∷◌, [], OnOk, IsTrue, All, slice_get, true};
ghost use Rattle.std.specs.Prelude.{if◌then◌else◌};
ghost use Rattle.std.specs.List.{flat_map};
ghost use Rattle.exact_fraction.specs.Number.{zero};
ghost use Rattle.rule_types.specs.declared.condition.Side.TheVariants as side;
ghost use Rattle.rule_types.specs.Fitting.{IsStep};
ghost use Rattle.rule_types.specs.WellFormed.{ConditionFits, IsTimeRight, IsTimeValue, RuleFits};
ghost use Rattle.verdict_meaning.specs.Grids.{condition_cuts, is_setting_of, key_cuts, number_cuts};
ghost use Rattle.verdict_meaning.specs.Grids.{side_cuts};
ghost use Rattle.verdict_meaning.specs.Reaches.{same_key};
ghost use Rattle.grid_cuts.specs.internal.Additions.{Adds, asked_cuts, rule_cuts, within};

use crate::key_range::KeyRange;
use box_truths::side_of;
use byte_edge::NoMemory;
use clock_values::{hours_of_step, step_ends};
use exact_fraction::frac::Frac;
use list_types::Items;
use rule_types::{Attr, Condition, Key, NameDef, Right, Rules, Side};

/// Adds the numbers at which the rules of some numbers cut the range of a key. It takes time by the
/// conditions of these rules. NoMemory is the one error.
pub(crate) fn add_asked_cuts(
    list: &mut Vec<Frac>,
    wanted: &KeyRange,
    rules: &Rules,
    asked: &[u32],
) -> Result<(), NoMemory>
    requires step { IsStep wanted.now.step }
    requires fit { All (RuleFits rules.now.names) rules.now.rules }
    ensures adds { OnOk result (Adds list.old.items list.new.items
        (within wanted.now (asked_cuts rules.now wanted.now asked.now))) }
{
    for number in asked {
        add_rule(list, wanted, rules, *number)?;
    }
    Ok(())
}

/// The same of one rule, if there is one of this number.
#[tactic(auto, using(crate::proofs::AddedCuts::additions))]
fn add_rule(
    list: &mut Vec<Frac>,
    wanted: &KeyRange,
    rules: &Rules,
    number: u32,
) -> Result<(), NoMemory>
    requires step { IsStep wanted.now.step }
    requires fit { All (RuleFits rules.now.names) rules.now.rules }
    ensures adds { OnOk result (Adds list.old.items list.new.items
        (within wanted.now (rule_cuts rules.now.names wanted.now
        (slice_get rules.now.rules number)))) }
{
    match rules.rules.get(number as usize) {
        Some(rule) => add_conditions(list, wanted, &rules.names, rule.conditions.as_slice()),
        None => Ok(()),
    }
}

/// The same of some conditions.
fn add_conditions(
    list: &mut Vec<Frac>,
    wanted: &KeyRange,
    names: &Items<NameDef>,
    conditions: &[Condition],
) -> Result<(), NoMemory>
    requires step { IsStep wanted.now.step }
    requires fit { All (ConditionFits names.now) conditions.now }
    ensures adds { OnOk result (Adds list.old.items list.new.items (within wanted.now
        (flat_map (condition_cuts names.now wanted.now.step wanted.now.key) conditions.now))) }
{
    for condition in conditions {
        add_condition(list, wanted, names, condition)?;
    }
    Ok(())
}

/// The same of one condition.
#[tactic(auto, using(crate::proofs::AddedCuts::additions), unfolding(verdict_meaning::specs::Grids::condition_cuts))]
fn add_condition(
    list: &mut Vec<Frac>,
    wanted: &KeyRange,
    names: &Items<NameDef>,
    condition: &Condition,
) -> Result<(), NoMemory>
    requires step { IsStep wanted.now.step }
    requires fit { ConditionFits names.now condition.now }
    ensures adds { OnOk result (Adds list.old.items list.new.items (within wanted.now
        (condition_cuts names.now wanted.now.step wanted.now.key condition.now))) }
{
    match &side_of(names, &condition.left) {
        Side::Key(left) => add_side(list, wanted, condition.half_step, left, &condition.right),
        Side::Expr(_) => Ok(()),
    }
}

/// The same of a condition whose left side is a key.
#[tactic(auto, using(crate::proofs::AddedCuts::additions))]
fn add_side(
    list: &mut Vec<Frac>,
    wanted: &KeyRange,
    half_step: bool,
    left: &Key,
    right: &Right,
) -> Result<(), NoMemory>
    requires step { IsStep wanted.now.step }
    requires value { IsTrue half_step → IsTimeRight right.now }
    ensures adds { OnOk result (Adds list.old.items list.new.items (within wanted.now
        (side_cuts wanted.now.key half_step wanted.now.step (side.Key left.now) right.now))) }
{
    match right {
        Right::Value(number) => add_value(list, wanted, half_step, left, number),
        Right::Key(_) => add_zero(list, wanted, left),
    }
}

/// The same of a condition of a key against a number.
#[tactic(auto, using(crate::proofs::AddedCuts::additions))]
fn add_value(
    list: &mut Vec<Frac>,
    wanted: &KeyRange,
    half_step: bool,
    left: &Key,
    number: &Frac,
) -> Result<(), NoMemory>
    requires step { IsStep wanted.now.step }
    requires value { IsTrue half_step → IsTimeValue number.now }
    ensures adds { OnOk result (Adds list.old.items list.new.items (within wanted.now
        (key_cuts wanted.now.key half_step wanted.now.step left.now number.now))) }
{
    if is_same(&wanted.key, left) {
        return add_number(list, wanted, half_step, number);
    }
    add_zero(list, wanted, left)
}

/// The same of a condition of the key itself: the number, or the ends of its window of half a step.
#[tactic(auto, using(crate::proofs::AddedCuts::additions))]
fn add_number(
    list: &mut Vec<Frac>,
    wanted: &KeyRange,
    half_step: bool,
    number: &Frac,
) -> Result<(), NoMemory>
    requires step { IsStep wanted.now.step }
    requires value { IsTrue half_step → IsTimeValue number.now }
    ensures adds { OnOk result (Adds list.old.items list.new.items (within wanted.now
        (number_cuts half_step wanted.now.step number.now))) }
{
    if half_step {
        return add_window(list, wanted, number);
    }
    add_within(list, wanted, number)
}

/// Adds the ends of the window of half a step around a time.
#[tactic(auto, using(crate::proofs::AddedCuts::additions))]
fn add_window(list: &mut Vec<Frac>, wanted: &KeyRange, time: &Frac) -> Result<(), NoMemory>
    requires step { IsStep wanted.now.step }
    requires value { IsTimeValue time.now }
    ensures adds { OnOk result (Adds list.old.items list.new.items (within wanted.now
        (number_cuts true wanted.now.step time.now))) }
{
    let ends = step_ends(time, &hours_of_step(&wanted.step));
    add_both(list, wanted, &ends.low, &ends.high)
}

/// Adds 0, where the key is the SETTING of a STATUS.
#[tactic(auto, using(crate::proofs::AddedCuts::additions))]
fn add_zero(list: &mut Vec<Frac>, wanted: &KeyRange, left: &Key) -> Result<(), NoMemory>
    ensures adds { OnOk result (Adds list.old.items list.new.items (within wanted.now
        (if is_setting_of wanted.now.key left.now then zero ∷ [] else []))) }
{
    if is_setting_of(&wanted.key, left) {
        return add_within(list, wanted, &Frac::zero());
    }
    Ok(())
}

/// Whether a key is the SETTING of a STATUS.
fn is_setting_of(key: &Key, left: &Key) -> bool
    ensures value { result ≡ is_setting_of key.now left.now }
{
    match left {
        Key::Object(object, Attr::Status) => is_same(key, &Key::Object(*object, Attr::Setting)),
        Key::Object(_, _) => false,
        Key::Clock(_) => false,
    }
}

/// Whether two keys are the same.
pub(crate) fn is_same(key: &Key, other: &Key) -> bool
    ensures value { result ≡ same_key key.now other.now }
{
    *key == *other
}

/// Adds two numbers, where they lie in the range.
pub(crate) fn add_both(
    list: &mut Vec<Frac>,
    wanted: &KeyRange,
    low: &Frac,
    high: &Frac,
) -> Result<(), NoMemory>
    ensures adds { OnOk result (Adds list.old.items list.new.items
        (within wanted.now (low.now ∷ high.now ∷ []))) }
{
    add_within(list, wanted, low)?;
    add_within(list, wanted, high)
}

/// Adds a number, where it lies in the range.
#[tactic(auto, using(crate::proofs::AddedCuts::adds_in, crate::proofs::AddedCuts::adds_out))]
fn add_within(list: &mut Vec<Frac>, wanted: &KeyRange, number: &Frac) -> Result<(), NoMemory>
    ensures adds { OnOk result (Adds list.old.items list.new.items
        (within wanted.now (number.now ∷ []))) }
{
    if wanted.range.holds(number) {
        return add(list, number);
    }
    Ok(())
}

/// Adds a number.
#[tactic(auto, using(crate::proofs::AddedCuts::additions))]
pub(crate) fn add(list: &mut Vec<Frac>, number: &Frac) -> Result<(), NoMemory>
    ensures adds { OnOk result (Adds list.old.items list.new.items (number.now ∷ [])) }
{
    let _held = number.num();
    list.push(*number)?;
    Ok(())
}
