//! Conditions and premises of rules, and the two sides that modulated actions read, over values
//! that were made of a state.
ghost use Rattle.std.specs.Prelude.{◌≡◌, ◌<◌, ◌-◌, List, Some, None, IfSome, length, slice_get};
ghost use Rattle.std.specs.Prelude.{option_and_then};
ghost use Rattle.std.specs.Prelude.{Contains};
ghost use Rattle.rule_types.specs.WellFormed.{WellFormed};
ghost use Rattle.rule_types.specs.declared.condition.Condition.{Condition as AnyCondition};
ghost use Rattle.rule_types.specs.declared.rule.Rule.{Rule as AnyRule};
ghost use Rattle.rule_types.specs.declared.state.State.{State as AnyState};
ghost use Rattle.rule_meaning.specs.Condition.{holds, left_value};
ghost use Rattle.rule_meaning.specs.Premise.{premise_holds};
ghost use Rattle.rule_meaning.specs.Worth.{controller_of, set_point_of};
ghost use Rattle.premise_eval.specs.Columns.{IsColumn, IsSideOf, ConditionExists, PairsFit};
ghost use Rattle.premise_eval.specs.Kept.{IsPlan, IsMade};
ghost use Rattle.premise_eval.specs.internal.ColumnReading.{right_in, NoColumn};

use crate::column::{Column, Pair, value_in};
use crate::conditions::{holds_in, premise_in, right_in};
use crate::values::Values;
use exact_fraction::frac::Frac;
use rule_types::{Right, Rules, Side};

/// Whether a condition of a rule holds at the state that the values were made of, where they were
/// made for that rule. A condition with a missing side does not hold. It takes no memory, and the
/// same time for every condition.
pub fn condition(rules: &Rules, values: &Values, rule: u32, number: u32) -> bool
    requires well_formed { WellFormed rules.now }
    requires plan { IsPlan rules.now values.now }
    requires exists { ConditionExists rules.now rule number }
    ensures value { (only : List AnyRule) (s : AnyState) (row : AnyRule) (c : AnyCondition)
        → IsMade rules.now only s values.now → Contains only row
        → slice_get rules.now.rules rule ≡ Some row → slice_get row.conditions number ≡ Some c
        → result ≡ holds rules.now s c }
{
    let row = &rules.rules.as_slice()[rule as usize];
    let condition = &row.conditions.as_slice()[number as usize];
    let pairs = pairs_of(rules, values, rule);
    holds_in(
        &values.hours,
        &values.values,
        &pairs[number as usize],
        condition,
    )
}

/// Whether the premise of a rule holds at the state that the values were made of, where they were
/// made for that rule. It takes no memory, and time by the number of the rule's conditions.
pub fn premise(rules: &Rules, values: &Values, rule: u32) -> bool
    requires well_formed { WellFormed rules.now }
    requires plan { IsPlan rules.now values.now }
    requires exists { rule < length rules.now.rules }
    ensures value { (only : List AnyRule) (s : AnyState) (row : AnyRule)
        → IsMade rules.now only s values.now → Contains only row
        → slice_get rules.now.rules rule ≡ Some row
        → result ≡ premise_holds rules.now s row }
{
    let row = &rules.rules.as_slice()[rule as usize];
    let pairs = pairs_of(rules, values, rule);
    premise_in(
        &values.hours,
        &values.values,
        pairs,
        row.conditions.as_slice(),
    )
}

/// The controller of a rule: the left side of its last condition.
pub fn controller(rules: &Rules, values: &Values, rule: u32) -> Option<Frac>
    requires well_formed { WellFormed rules.now }
    requires plan { IsPlan rules.now values.now }
    requires exists { rule < length rules.now.rules }
    ensures value { (only : List AnyRule) (s : AnyState) (row : AnyRule)
        → IsMade rules.now only s values.now → Contains only row
        → slice_get rules.now.rules rule ≡ Some row
        → result ≡ controller_of rules.now s row.conditions }
{
    match pairs_of(rules, values, rule).last() {
        Some(pair) => value_in(&values.values, pair.left),
        None => None,
    }
}

/// The set point of a rule: the right side of its last condition.
pub fn set_point(rules: &Rules, values: &Values, rule: u32) -> Option<Frac>
    requires well_formed { WellFormed rules.now }
    requires plan { IsPlan rules.now values.now }
    requires exists { rule < length rules.now.rules }
    ensures value { (only : List AnyRule) (s : AnyState) (row : AnyRule)
        → IsMade rules.now only s values.now → Contains only row
        → slice_get rules.now.rules rule ≡ Some row
        → result ≡ set_point_of rules.now s row.conditions }
{
    let row = &rules.rules.as_slice()[rule as usize];
    let pairs = pairs_of(rules, values, rule);
    match row.conditions.as_slice().last() {
        Some(condition) => last_right(&values.values, pairs, &condition.right),
        None => None,
    }
}

/// The value of a right side that has the second column of the last pair where it is a key.
fn last_right(values: &[Option<Frac>], pairs: &[Pair], right: &Right) -> Option<Frac>
    ensures value { result ≡ option_and_then (λ pair. right_in values.now pair.right right.now)
        (slice_get pairs.now (length pairs.now - 1)) }
{
    let pair = pairs.last()?;
    right_in(values, pair.right, right)
}

/// The columns of the conditions of a rule.
fn pairs_of<'a>(rules: &Rules, values: &'a Values, rule: u32) -> &'a [Pair]
    requires plan { IsPlan rules.now values.now }
    requires exists { rule < length rules.now.rules }
    ensures each { (row : AnyRule) → slice_get rules.now.rules rule ≡ Some row
        → PairsFit values.now.columns row.conditions result.now }
{
    let _rules = rules.rules.len();
    values.pairs[rule as usize].as_slice()
}

/// The value of a side, where it stands in a condition of a rule that the values were made for; a
/// key on the right of a condition counts as a side too. It takes no memory, and time by the number
/// of columns.
pub fn side_value(rules: &Rules, values: &Values, side: &Side) -> Option<Frac>
    requires well_formed { WellFormed rules.now }
    requires plan { IsPlan rules.now values.now }
    ensures value { (only : List AnyRule) (s : AnyState) → IsMade rules.now only s values.now
        → IsSideOf rules.now only side.now → result ≡ left_value rules.now s side.now }
{
    let _names = rules.names.len();
    match find_column(&values.columns, side) {
        Some(at) => value_in(&values.values, at),
        None => None,
    }
}

/// The number of the first column of a side.
fn find_column(columns: &[Column], side: &Side) -> Option<usize>
    ensures found { IfSome result (λ at. IsColumn columns.now at side.now) }
    ensures absent { result ≡ None → NoColumn columns.now (length columns.now) side.now }
{
    for at in 0..columns.len() {
        if columns[at].side.is_same(side) {
            return Some(at);
        }
    }
    None
}

/// The number of the column of the left side of a condition, among the columns of the values.
pub fn left_column(rules: &Rules, values: &Values, rule: u32, number: u32) -> usize
    requires plan { IsPlan rules.now values.now }
    requires exists { ConditionExists rules.now rule number }
    ensures column { (row : AnyRule) (c : AnyCondition)
        → slice_get rules.now.rules rule ≡ Some row → slice_get row.conditions number ≡ Some c
        → IsColumn values.now.columns result c.left }
{
    let pairs = pairs_of(rules, values, rule);
    pairs[number as usize].left
}
