//! The walk through a certificate.
ghost use Rattle.std.specs.Prelude.{◌≡◌, ℕ, ◌≤◌, pos, ◌-ℤ◌, Some, None, Ok, OnOk, true, nat_lt, false};
ghost use Rattle.rule_types.specs.Tables.{HoldsTables};
ghost use Rattle.rule_types.specs.WellFormed.{WellFormed};
ghost use Rattle.rule_types.specs.declared.action.PidMemory.{PidMemory as AnyMemory};
ghost use Rattle.rule_types.specs.declared.state.State.{State as AnyState};
ghost use Rattle.verdict_meaning.specs.Boxes.{IsInRanges};
ghost use Rattle.verdict_meaning.specs.Certificates.{cert_judged, checked_cert, leaf_cause, part_at};
ghost use Rattle.verdict_meaning.specs.Certificates.{Judge, leaf_judged, part_through, part_with};
ghost use Rattle.verdict_meaning.specs.Events.{has_event};
ghost use Rattle.cert_checker.specs.Answers.{IsAnswer};
ghost use Rattle.cert_checker.specs.internal.Narrowing.{IsPlaceOf, Judges};

use crate::leaves::{check_leaf, is_plain};
use crate::moments::{is_in_order, lies_between, second_before};
use crate::pieces::{above_of, below_of, can_split, place_of};
use crate::places::{next_place, shape_fault};
use curves_series::Tables;
use exact_fraction::frac::Frac;
use exact_fraction::moment::Moment;
use interval_sets::Interval;
use list_types::Boxed;
use question_boxes::first_box;
use rule_types::{Key, Rules};
use std::alloc::Global;
use verdict_meaning::{Cell, Cert, CertEnd, Question, Ranges, Reason};

/// The greatest depth of a node.
const DEEPEST: u32 = 1_024;

/// Whether a certificate shows that no state of the ranges has a question's event: Ok exactly where
/// it is accepted, else the first node at fault in the order of lines, from 0, and what is wrong
/// with it: Shape where it is not well formed, NotShown where it is a leaf whose box is not shown.
/// The places of nodes stay at 2^64-1. NoMemory is the one other error. A node deeper than 1,024 is
/// not well formed, so the walk goes no deeper.
pub fn check(
    alloc: Global,
    rules: &Rules,
    tables: &Tables,
    ranges: &Ranges,
    question: &Question,
    cert: &Cert,
) -> Result<(), CertEnd>
    requires formed { WellFormed rules.now }
    requires tables { HoldsTables tables.now rules.now.rules }
    ensures answer { IsAnswer result
        (checked_cert rules.now tables.now ranges.now question.now cert.now) }
    ensures no_state { OnOk result ((memory : ℕ → AnyMemory) (s : AnyState)
        → IsInRanges rules.now question.now ranges.now memory s
        → has_event rules.now tables.now memory s question.now ≡ true → ⊥) }
{
    let Ok(mut cell) = first_box(alloc, rules, question, ranges) else {
        return Err(CertEnd::NoMemory);
    };
    match check_node(alloc, rules, tables, question, cert, 1, &mut cell, 0) {
        Ok(_) => Ok(()),
        Err(end) => Err(end),
    }
}

/// A tree at a depth in a box, which is narrowed and then put back, from a place on.
#[cycle(walk)]
fn check_node(
    alloc: Global,
    rules: &Rules,
    tables: &Tables,
    question: &Question,
    cert: &Cert,
    depth: u32,
    cell: &mut Cell,
    place: u64,
) -> Result<u64, CertEnd>
    requires formed { WellFormed rules.now }
    requires tables { HoldsTables tables.now rules.now.rules }
    requires depth { depth ≤ 1025 }
    ensures judged { Judges place result
        (cert_judged (leaf_cause rules.now tables.now question.now) cert.now depth
        (Some cell.old)) }
    ensures kept { cell.new ≡ cell.old }
{
    if DEEPEST < depth {
        return shape_fault(place);
    }
    match cert {
        Cert::Leaf(reason) => check_leaf(alloc, rules, tables, question, cell, reason, place),
        Cert::Split(key, number, below, at, above) => {
            let Some(entry) = place_of(key, cell.keys.as_slice()) else {
                return shape_fault(place);
            };
            let piece = cell.keys.as_slice()[entry].1;
            if !can_split(&piece, number) {
                return shape_fault(place);
            }
            let lower = below_of(&piece, number);
            let upper = above_of(&piece, number);
            let next = match check_part(
                alloc,
                rules,
                tables,
                question,
                below,
                depth + 1,
                cell,
                key,
                entry,
                &lower,
                next_place(place),
            ) {
                Ok(next) => next,
                Err(end) => return Err(end),
            };
            let last = match check_point(
                alloc,
                rules,
                tables,
                question,
                at,
                depth + 1,
                cell,
                key,
                entry,
                &piece,
                number,
                next,
            ) {
                Ok(last) => last,
                Err(end) => return Err(end),
            };
            check_part(
                alloc,
                rules,
                tables,
                question,
                above,
                depth + 1,
                cell,
                key,
                entry,
                &upper,
                last,
            )
        }
        Cert::Before(moment, before, from) => {
            let Some((first, last)) = cell.moments else {
                return shape_fault(place);
            };
            if !lies_between(&first, moment, &last) {
                return shape_fault(place);
            }
            let next = match check_before(
                alloc,
                rules,
                tables,
                question,
                before,
                depth + 1,
                cell,
                &first,
                moment,
                next_place(place),
            ) {
                Ok(next) => next,
                Err(end) => return Err(end),
            };
            check_span(
                alloc,
                rules,
                tables,
                question,
                from,
                depth + 1,
                cell,
                moment,
                &last,
                next,
            )
        }
    }
}

/// A tree in the part of a box in which a key has an interval.
#[cycle(walk)]
fn check_part(
    alloc: Global,
    rules: &Rules,
    tables: &Tables,
    question: &Question,
    cert: &Boxed<Cert>,
    depth: u32,
    cell: &mut Cell,
    key: &Key,
    entry: usize,
    piece: &Interval,
    place: u64,
) -> Result<u64, CertEnd>
    requires formed { WellFormed rules.now }
    requires tables { HoldsTables tables.now rules.now.rules }
    requires depth { depth ≤ 1025 }
    requires entry { IsPlaceOf key.now entry cell.old.keys }
    ensures judged { Judges place result
        (cert_judged (leaf_cause rules.now tables.now question.now) cert.now depth
        (part_with key.now piece.now cell.old)) }
    ensures kept { cell.new ≡ cell.old }
{
    if piece.is_empty() {
        return check_empty(cert.get(), depth, place);
    }
    let whole = cell.keys.as_slice()[entry];
    cell.keys.set(entry, (whole.0, *piece));
    let answer = check_node(
        alloc,
        rules,
        tables,
        question,
        cert.get(),
        depth,
        cell,
        place,
    );
    cell.keys.set(entry, whole);
    answer
}

/// A tree in the part of a box at a number of a key that has this interval.
#[cycle(walk)]
fn check_point(
    alloc: Global,
    rules: &Rules,
    tables: &Tables,
    question: &Question,
    cert: &Boxed<Cert>,
    depth: u32,
    cell: &mut Cell,
    key: &Key,
    entry: usize,
    piece: &Interval,
    number: &Frac,
    place: u64,
) -> Result<u64, CertEnd>
    requires formed { WellFormed rules.now }
    requires tables { HoldsTables tables.now rules.now.rules }
    requires depth { depth ≤ 1025 }
    requires entry { IsPlaceOf key.now entry cell.old.keys }
    ensures judged { Judges place result
        (cert_judged (leaf_cause rules.now tables.now question.now) cert.now depth
        (part_at key.now piece.now number.now cell.old)) }
    ensures kept { cell.new ≡ cell.old }
{
    if !piece.holds(number) {
        return check_empty(cert.get(), depth, place);
    }
    let point = Interval::point(*number);
    check_part(
        alloc, rules, tables, question, cert, depth, cell, key, entry, &point, place,
    )
}

/// A tree in the part of a box from a moment to another.
#[cycle(walk)]
fn check_span(
    alloc: Global,
    rules: &Rules,
    tables: &Tables,
    question: &Question,
    cert: &Boxed<Cert>,
    depth: u32,
    cell: &mut Cell,
    first: &Moment,
    last: &Moment,
    place: u64,
) -> Result<u64, CertEnd>
    requires formed { WellFormed rules.now }
    requires tables { HoldsTables tables.now rules.now.rules }
    requires depth { depth ≤ 1025 }
    ensures judged { Judges place result
        (cert_judged (leaf_cause rules.now tables.now question.now) cert.now depth
        (part_through first.now last.now cell.old)) }
    ensures kept { cell.new ≡ cell.old }
{
    if !is_in_order(first, last) {
        return check_empty(cert.get(), depth, place);
    }
    let whole = cell.moments;
    cell.moments = Some((*first, *last));
    let answer = check_node(
        alloc,
        rules,
        tables,
        question,
        cert.get(),
        depth,
        cell,
        place,
    );
    cell.moments = whole;
    answer
}

/// A tree in the part of a box from a moment to the second before another.
#[cycle(walk)]
fn check_before(
    alloc: Global,
    rules: &Rules,
    tables: &Tables,
    question: &Question,
    cert: &Boxed<Cert>,
    depth: u32,
    cell: &mut Cell,
    first: &Moment,
    moment: &Moment,
    place: u64,
) -> Result<u64, CertEnd>
    requires formed { WellFormed rules.now }
    requires tables { HoldsTables tables.now rules.now.rules }
    requires depth { depth ≤ 1025 }
    ensures judged { Judges place result
        (cert_judged (leaf_cause rules.now tables.now question.now) cert.now depth
        (part_through first.now (moment.now -ℤ pos 1) cell.old)) }
    ensures kept { cell.new ≡ cell.old }
{
    let Some(last) = second_before(first, moment) else {
        return check_empty(cert.get(), depth, place);
    };
    check_span(
        alloc, rules, tables, question, cert, depth, cell, first, &last, place,
    )
}

/// A tree in an empty part: it is a leaf without facts.
fn check_empty(cert: &Cert, depth: u32, place: u64) -> Result<u64, CertEnd>
    ensures judged { (judge : Judge) → Judges place result
        (cert_judged judge cert.now depth None) }
{
    if DEEPEST < depth {
        return shape_fault(place);
    }
    match cert {
        Cert::Leaf(reason) => empty_leaf(reason, place),
        Cert::Split(_, _, _, _, _) => shape_fault(place),
        Cert::Before(_, _, _) => shape_fault(place),
    }
}

/// A leaf of an empty part.
fn empty_leaf(reason: &Reason, place: u64) -> Result<u64, CertEnd>
    ensures judged { (judge : Judge) → Judges place result
        (leaf_judged judge reason.now None) }
{
    if !is_plain(reason) {
        return shape_fault(place);
    }
    Ok(next_place(place))
}
