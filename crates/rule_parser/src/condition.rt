//! The conditions of rules.
ghost use Rattle.std.specs.Prelude.{◌≡◌, IfOk};
ghost use Rattle.control_lines.specs.Views.{checked_now, side_now, condition_now};
ghost use Rattle.rule_parser.specs.Conditions.{left_read, right_read};
ghost use Rattle.rule_parser.specs.Conditions.{kind_for as kind_of_key, kind_wanted as wanted_by};
ghost use Rattle.rule_parser.specs.Conditions.{value_right as right_value, item_right, if_read};
ghost use Rattle.rule_parser.specs.Conditions.{is_value as is_written, begins_group as opens};
ghost use Rattle.rule_parser.specs.Conditions.{condition_of as of_sides, condition_from};
ghost use Rattle.rule_parser.specs.Conditions.{condition_read};

use crate::keys::read_key;
use crate::names::NameList;
use byte_edge::NoMemory;
use control_lines::{ConditionText, ConditionWord, Fault, SideText};
use exact_fraction::frac::Frac;
use exact_fraction::relation::Relation;
use network_lines::{ValueKind, read_value};
use object_index::ObjectIndex;
use rule_types::{Attr, Cause, ClockAttr, Condition, Key, Right, Side, takes_half_step};
use std::alloc::Global;

/// The condition that is written, over the objects and the names declared before, or what is
/// reported of it. A single item on the left is a declared name; on the right it is a variable, or
/// else a value of the kind that the left side is compared with (SWMM 5.2 manual, [CONTROLS]).
#[tactic(auto, unfolding(crate::specs::Conditions::condition_read))]
pub(crate) fn read_condition<'a>(
    alloc: Global,
    objects: &ObjectIndex,
    names: &NameList,
    written: &ConditionText<'a>,
) -> Result<Result<Condition, Fault<'a>>, NoMemory>
    ensures { IfOk result (λ found. checked_now found
        ≡ condition_read objects.now names.now (condition_now written.now)) }
{
    let left = read_left(alloc, objects, names, &written.left)?;
    match read_right(alloc, objects, names, side_of(&left), &written.right) {
        Ok(right) => Ok(condition_from(written.word, written.relation, &left, &right)),
        Err(_) => Err(NoMemory),
    }
}

/// The condition of two sides that are read.
#[tactic(auto, unfolding(control_lines::specs::Faults::both))]
fn condition_from<'a>(
    word: ConditionWord,
    relation: Relation,
    left: &Result<Side, Fault<'a>>,
    right: &Result<Right, Fault<'a>>,
) -> Result<Condition, Fault<'a>>
    ensures { checked_now result
        ≡ condition_from word relation (checked_now left.now) (checked_now right.now) }
{
    match left {
        Ok(left) => match right {
            Ok(right) => Ok(condition_of(word, relation, left, right)),
            Err(fault) => Err(*fault),
        },
        Err(fault) => match right {
            Ok(_) => Err(*fault),
            Err(other) => Err(fault.sooner(*other)),
        },
    }
}

/// The condition of two sides.
fn condition_of(word: ConditionWord, relation: Relation, left: &Side, right: &Right) -> Condition
    ensures { result ≡ of_sides word relation left.now right.now }
{
    Condition {
        left: *left,
        rel: relation,
        right: *right,
        half_step: takes_half_step(left, &relation) && is_value(right),
        joined_by_and: begins_group(word),
    }
}

/// The left side of a condition.
#[tactic(auto, unfolding(crate::specs::Conditions::left_read))]
fn read_left<'a>(
    alloc: Global,
    objects: &ObjectIndex,
    names: &NameList,
    written: &SideText<'a>,
) -> Result<Result<Side, Fault<'a>>, NoMemory>
    ensures { IfOk result (λ found. checked_now found
        ≡ left_read objects.now names.now (side_now written.now)) }
{
    match written {
        SideText::Key(key) => match read_key(alloc, objects, key)? {
            Ok(key) => Ok(Ok(Side::Key(key))),
            Err(fault) => Ok(Err(fault)),
        },
        SideText::Single(item) => match names.named_side(item) {
            Some(side) => Ok(Ok(side)),
            None => Ok(Err(Fault {
                cause: Cause::UnknownName,
                token: item,
            })),
        },
    }
}

/// The side that is read, if it is.
fn side_of(left: &Result<Side, Fault<'_>>) -> Option<Side>
    ensures { result ≡ if_read (checked_now left.now) }
{
    match left {
        Ok(side) => Some(*side),
        Err(_) => None,
    }
}

/// The right side of a condition with this left side.
#[tactic(auto, unfolding(crate::specs::Conditions::right_read))]
fn read_right<'a>(
    alloc: Global,
    objects: &ObjectIndex,
    names: &NameList,
    left: Option<Side>,
    written: &SideText<'a>,
) -> Result<Result<Right, Fault<'a>>, NoMemory>
    ensures { IfOk result (λ found. checked_now found
        ≡ right_read objects.now names.now left (side_now written.now)) }
{
    match written {
        SideText::Key(key) => match read_key(alloc, objects, key)? {
            Ok(key) => Ok(Ok(Right::Key(key))),
            Err(fault) => Ok(Err(fault)),
        },
        SideText::Single(item) => Ok(read_item(names.variable_key(item), left, item)),
    }
}

/// A single item on the right: the variable, or else a value.
fn read_item<'a>(
    variable: Option<Key>,
    left: Option<Side>,
    item: &'a [u8],
) -> Result<Right, Fault<'a>>
    ensures { checked_now result ≡ item_right variable left item.now }
{
    match variable {
        Some(key) => Ok(Right::Key(key)),
        None => right_value(left, item),
    }
}

/// A value on the right of a side; where there is no left side it is not looked at.
fn right_value<'a>(left: Option<Side>, item: &'a [u8]) -> Result<Right, Fault<'a>>
    ensures { checked_now result ≡ right_value left item.now }
{
    let Some(side) = left else {
        return Ok(Right::Value(Frac::zero()));
    };
    match read_value(kind_wanted(&side), item) {
        Ok(number) => Ok(Right::Value(number)),
        Err(fault) => Err(fault),
    }
}

/// The kind of value that a left side is compared with.
fn kind_wanted(side: &Side) -> ValueKind
    ensures { result ≡ wanted_by side.now }
{
    match side {
        Side::Key(key) => kind_for(key),
        Side::Expr(_) => ValueKind::Number,
    }
}

/// The kind of value that a key is compared with.
fn kind_for(key: &Key) -> ValueKind
    ensures { result ≡ kind_of_key key.now }
{
    match key {
        Key::Object(_, Attr::Status) => ValueKind::Status,
        Key::Object(_, Attr::TimeOpen | Attr::TimeClosed) => ValueKind::Time,
        Key::Object(_, _) => ValueKind::Number,
        Key::Clock(ClockAttr::Time | ClockAttr::ClockTime) => ValueKind::Time,
        Key::Clock(ClockAttr::Date) => ValueKind::Date,
        Key::Clock(ClockAttr::DayOfYear) => ValueKind::DayOfYear,
        Key::Clock(_) => ValueKind::Number,
    }
}

/// Whether a right side is a value.
fn is_value(right: &Right) -> bool
    ensures { result ≡ is_written right.now }
{
    matches!(right, Right::Value(_))
}

/// Whether a condition begins a group behind a word.
fn begins_group(word: ConditionWord) -> bool
    ensures { result ≡ opens word }
{
    !matches!(word, ConditionWord::Or)
}
