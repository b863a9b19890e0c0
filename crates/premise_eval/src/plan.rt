//! The plan by which the sides of conditions are read, made once for rules.
ghost use Rattle.std.specs.Prelude.{◌≡◌, length, IfOk, OnOk, IfSome};
ghost use Rattle.rule_types.specs.WellFormed.{InOrder};
ghost use Rattle.premise_eval.specs.Columns.{IsColumn, ColumnsFit, PairsFit, AllPairsFit};
ghost use Rattle.premise_eval.specs.Columns.{RightPaired};
ghost use Rattle.premise_eval.specs.Columns.{IsPair, SidePlaced};
ghost use Rattle.premise_eval.specs.Places.{NamesPlaced, KindPlaced};
ghost use Rattle.premise_eval.specs.internal.ColumnReading.{Extends};

use crate::column::{Column, Pair};
use crate::find::place_of;
use crate::place::Place;
use byte_edge::NoMemory;
use list_types::Items;
use rule_types::{Attr, ClockAttr, Condition, NameKind, Right, Rule, Rules, Side};
use std::alloc::Global;

/// The places of what the names stand for.
pub(crate) fn name_places(alloc: Global, rules: &Rules) -> Result<Vec<Place>, NoMemory>
    requires in_order { InOrder rules.now }
    ensures places { IfOk result (λ places. NamesPlaced rules.now places.items) }
{
    let mut places = Vec::new(alloc);
    for named in rules.names.as_slice() {
        let place = kind_place(rules, &named.stands_for);
        places.push(place)?;
    }
    Ok(places)
}

/// The place of what a name stands for.
fn kind_place(rules: &Rules, kind: &NameKind) -> Place
    requires in_order { InOrder rules.now }
    ensures place { KindPlaced rules.now kind.now result }
{
    match kind {
        NameKind::Variable(key) => place_of(rules, key),
        NameKind::Formula(_) => Place::Nowhere,
    }
}

/// The columns of each condition of each rule, and the columns, to which they are added. `numbers`
/// remembers numbers of columns, where a side is looked for first.
pub(crate) fn all_pairs(
    alloc: Global,
    rules: &Rules,
    numbers: &mut [usize],
    columns: &mut Vec<Column>,
) -> Result<Vec<Items<Pair>>, NoMemory>
    requires in_order { InOrder rules.now }
    requires columns { ColumnsFit rules.now columns.old.items }
    ensures columns { OnOk result (ColumnsFit rules.now columns.new.items) }
    ensures pairs { IfOk result
        (λ pairs. AllPairsFit columns.new.items rules.now.rules pairs.items) }
{
    let mut pairs = Vec::new(alloc);
    for rule in rules.rules.as_slice() {
        let row = rule_pairs(alloc, rules, rule, numbers, columns)?;
        pairs.push(Items::from_vec(row))?;
    }
    Ok(pairs)
}

/// The columns of each condition of a rule.
fn rule_pairs(
    alloc: Global,
    rules: &Rules,
    rule: &Rule,
    numbers: &mut [usize],
    columns: &mut Vec<Column>,
) -> Result<Vec<Pair>, NoMemory>
    requires in_order { InOrder rules.now }
    requires columns { ColumnsFit rules.now columns.old.items }
    ensures columns { OnOk result (ColumnsFit rules.now columns.new.items) }
    ensures more { OnOk result (Extends columns.old.items columns.new.items) }
    ensures pairs { IfOk result
        (λ pairs. PairsFit columns.new.items rule.now.conditions pairs.items) }
{
    let mut pairs = Vec::new(alloc);
    for condition in rule.conditions.as_slice() {
        let pair = pair_of(rules, condition, numbers, columns)?;
        pairs.push(pair)?;
    }
    Ok(pairs)
}

/// The columns of the two sides of a condition.
fn pair_of(
    rules: &Rules,
    condition: &Condition,
    numbers: &mut [usize],
    columns: &mut Vec<Column>,
) -> Result<Pair, NoMemory>
    requires in_order { InOrder rules.now }
    requires columns { ColumnsFit rules.now columns.old.items }
    ensures columns { OnOk result (ColumnsFit rules.now columns.new.items) }
    ensures more { OnOk result (Extends columns.old.items columns.new.items) }
    ensures pair { IfOk result (λ pair. IsPair columns.new.items condition.now pair) }
{
    let left = column_of(rules, &condition.left, numbers, columns)?;
    let right = right_column(rules, &condition.right, numbers, columns)?;
    Ok(Pair { left, right })
}

/// The column of a right side that is a key.
fn right_column(
    rules: &Rules,
    right: &Right,
    numbers: &mut [usize],
    columns: &mut Vec<Column>,
) -> Result<usize, NoMemory>
    requires in_order { InOrder rules.now }
    requires columns { ColumnsFit rules.now columns.old.items }
    ensures columns { OnOk result (ColumnsFit rules.now columns.new.items) }
    ensures more { OnOk result (Extends columns.old.items columns.new.items) }
    ensures column { IfOk result (λ at. RightPaired columns.new.items at right.now) }
{
    match right {
        Right::Key(key) => column_of(rules, &Side::Key(*key), numbers, columns),
        Right::Value(_) => Ok(0),
    }
}

/// The column of a side, which is added where it is not the one that is remembered for it.
fn column_of(
    rules: &Rules,
    side: &Side,
    numbers: &mut [usize],
    columns: &mut Vec<Column>,
) -> Result<usize, NoMemory>
    requires in_order { InOrder rules.now }
    requires columns { ColumnsFit rules.now columns.old.items }
    ensures columns { OnOk result (ColumnsFit rules.now columns.new.items) }
    ensures more { OnOk result (Extends columns.old.items columns.new.items) }
    ensures column { IfOk result (λ at. IsColumn columns.new.items at side.now) }
{
    let place = side_place(rules, side);
    let slot = slot_of(rules, side, &place);
    if let Some(at) = remembered(side, numbers, slot, columns) {
        return Ok(at);
    }
    let at = columns.len();
    columns.push(Column { side: *side, place })?;
    remember(numbers, slot, at);
    Ok(at)
}

/// Writes the number of a column into its slot, where there is one.
fn remember(numbers: &mut [usize], slot: usize, at: usize) {
    if slot < numbers.len() {
        numbers[slot] = at;
    }
}

/// The column that is remembered at a slot, where it is that of a side.
fn remembered(side: &Side, numbers: &[usize], slot: usize, columns: &[Column]) -> Option<usize>
    ensures column { IfSome result (λ at. IsColumn columns.now at side.now) }
{
    let number = numbers.get(slot)?;
    let column = columns.get(*number)?;
    if column.side.is_same(side) {
        return Some(*number);
    }
    None
}

/// The place of a side that is a key.
fn side_place(rules: &Rules, side: &Side) -> Place
    requires in_order { InOrder rules.now }
    ensures place { SidePlaced rules.now result side.now }
{
    match side {
        Side::Key(key) => place_of(rules, key),
        Side::Expr(_) => Place::Nowhere,
    }
}

/// How many slots `slot_of` tells apart.
pub(crate) fn slots(rules: &Rules) -> usize {
    let inputs = rules.input_keys.len();
    let links = rules.tracked.len().wrapping_mul(4);
    inputs
        .wrapping_add(links)
        .wrapping_add(rules.names.len())
        .wrapping_add(6)
}

/// The slot at which the column of a side is remembered: one for each input, for each of the four
/// attributes of a link that are read off its state, for each name and for each attribute of the
/// clock.
fn slot_of(rules: &Rules, side: &Side, place: &Place) -> usize {
    let links_from = rules.input_keys.len();
    let names_from = links_from.wrapping_add(rules.tracked.len().wrapping_mul(4));
    let clock_from = names_from.wrapping_add(rules.names.len());
    match (side, place) {
        (Side::Expr(name), _) => names_from.wrapping_add(*name as usize),
        (_, Place::Input(at)) => *at,
        (_, Place::Link(at, attribute)) => {
            let link = links_from.wrapping_add(at.wrapping_mul(4));
            link.wrapping_add(link_slot(attribute))
        }
        (_, Place::Clock(attribute)) => clock_from.wrapping_add(clock_slot(attribute)),
        (_, Place::Nowhere) => usize::MAX,
    }
}

/// The slot of an attribute that is read off a link's state.
fn link_slot(attribute: &Attr) -> usize {
    match attribute {
        Attr::Status => 1,
        Attr::TimeOpen => 2,
        Attr::TimeClosed => 3,
        _ => 0,
    }
}

/// The slot of an attribute of the clock.
fn clock_slot(attribute: &ClockAttr) -> usize {
    match attribute {
        ClockAttr::Time => 0,
        ClockAttr::Date => 1,
        ClockAttr::Month => 2,
        ClockAttr::Day => 3,
        ClockAttr::ClockTime => 4,
        ClockAttr::DayOfYear => 5,
    }
}
