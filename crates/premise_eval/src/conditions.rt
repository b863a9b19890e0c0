//! Conditions over the values of columns.
ghost use Rattle.std.specs.Prelude.{◌≡◌, Bool, ◌||◌, if◌then◌else◌, IsTrue, Some, length};
ghost use Rattle.std.specs.Prelude.{All};
ghost use Rattle.clock_values.specs.Steps.{IsStepInHours};
ghost use Rattle.rule_types.specs.WellFormed.{IsHalfStep};
ghost use Rattle.rule_types.specs.declared.condition.Condition.{Condition as AnyCondition};
ghost use Rattle.rule_meaning.specs.Condition.{both_meet};
ghost use Rattle.rule_meaning.specs.Premise.{whole_holds};
ghost use Rattle.premise_eval.specs.internal.ColumnReading.{holds_in, right_in, TruthIn};

use crate::column::{Pair, value_in};
use clock_values::meets;
use exact_fraction::frac::Frac;
use rule_types::{Condition, Right};

/// Whether a condition holds, whose sides have these columns, at a step in hours: not where a side
/// is missing.
#[tactic(auto, unfolding(crate::specs::internal::ColumnReading::holds_in))]
pub(crate) fn holds_in(
    hours: &Frac,
    values: &[Option<Frac>],
    pair: &Pair,
    condition: &Condition,
) -> bool
    requires step { IsStepInHours hours.now }
    requires half_step { IsTrue condition.now.half_step → IsHalfStep condition.now }
    ensures value { result ≡ holds_in hours.now values.now pair.now condition.now }
{
    match value_in(values, pair.left) {
        Some(left) => left_meets(hours, values, pair, condition, &left),
        None => false,
    }
}

/// Whether a left value meets a condition.
fn left_meets(
    hours: &Frac,
    values: &[Option<Frac>],
    pair: &Pair,
    condition: &Condition,
    left: &Frac,
) -> bool
    requires step { IsStepInHours hours.now }
    requires half_step { IsTrue condition.now.half_step → IsHalfStep condition.now }
    ensures value { result ≡ both_meet condition.now hours.now (Some left.now)
        (right_in values.now pair.now.right condition.now.right) }
{
    match &condition.right {
        Right::Value(right) => meets(condition, hours, left, right),
        Right::Key(_) => {
            let Some(right) = value_in(values, pair.right) else {
                return false;
            };
            meets(condition, hours, left, &right)
        }
    }
}

/// The value of a right side that has this column where it is a key.
pub(crate) fn right_in(values: &[Option<Frac>], at: usize, right: &Right) -> Option<Frac>
    ensures value { result ≡ right_in values.now at right.now }
{
    match right {
        Right::Key(_) => value_in(values, at),
        Right::Value(q) => Some(*q),
    }
}

/// Whether a premise holds: each of its groups has a condition that holds, where a condition that
/// is joined by AND begins a group.
pub(crate) fn premise_in(
    hours: &Frac,
    values: &[Option<Frac>],
    pairs: &[Pair],
    conditions: &[Condition],
) -> bool
    requires step { IsStepInHours hours.now }
    requires half_step { All (λ c. IsTrue c.half_step → IsHalfStep c) conditions.now }
    requires each { length pairs.now ≡ length conditions.now }
    ensures value { (truth : AnyCondition → Bool)
        → TruthIn hours.now values.now truth conditions.now pairs.now
        → result ≡ whole_holds truth conditions.now }
{
    if conditions.is_empty() {
        return true;
    }
    let mut any = holds_in(hours, values, &pairs[0], &conditions[0]);
    for at in 1..conditions.len() {
        let condition = &conditions[at];
        if condition.joined_by_and && !any {
            return false;
        }
        let holds = holds_in(hours, values, &pairs[at], condition);
        any = group_holds(condition.joined_by_and, any, holds);
    }
    any
}

/// Whether a condition of the group so far holds, with one more condition, which may begin a group.
fn group_holds(begins: bool, any: bool, holds: bool) -> bool
    ensures value { result ≡ (if begins then holds else (any || holds)) }
{
    if begins {
        return holds;
    }
    any || holds
}
