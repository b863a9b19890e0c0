//! The entries of one line of a time series.
ghost use Rattle.std.specs.Prelude.{◌≡◌, ◌<◌, ◌≤◌, length, option_map, IfOk, IfSome};
ghost use Rattle.std.specs.Prelude.{ℕ, List, None, Some, drop};
ghost use Rattle.num_text.specs.Times.{IsReadTime};
ghost use Rattle.curves_series.specs.Series.{axis_at, fault_of, time_read, hours_of_day, x_on};
ghost use Rattle.curves_series.specs.Series.{entry_pair, entries_of, behind_name, IsDay, IsAxis};
ghost use Rattle.curves_series.specs.Series.{entry_then};
ghost use Rattle.curves_series.specs.internal.Views.{pair_now, texts, after_cut, entries_now};

use crate::axis::Axis;
use crate::pair::PairRead;
use byte_edge::NoMemory;
use exact_fraction::frac::Frac;
use num_text::dates::read_date;
use num_text::error::NumberFault;
use num_text::numbers::read_number;
use num_text::times::read_time;
use std::alloc::Global;

/// The axis at an entry with or without a date of its own; None where a date may not stand.
fn axis_at(axis: Axis, date: Option<i32>) -> Option<Axis>
    requires day { IfSome date IsDay }
    requires axis { IsAxis axis }
    ensures value { result ≡ axis_at axis date }
    ensures axis { IfSome result IsAxis }
{
    match (axis, date) {
        (Axis::Open, None) => Some(Axis::Hours),
        (Axis::Open, Some(day)) => Some(Axis::Days(day)),
        (Axis::Hours, None) => Some(Axis::Hours),
        (Axis::Hours, Some(_)) => None,
        (Axis::Days(before), None) => Some(Axis::Days(before)),
        (Axis::Days(_), Some(day)) => Some(Axis::Days(day)),
    }
}

/// The hours of the item of a time, or why there are none.
fn time_read(item: &[u8]) -> Result<Frac, NumberFault>
    ensures value { result ≡ time_read item.now }
    ensures bounds { IfOk result IsReadTime }
{
    match read_time(item) {
        Some(hours) => Ok(hours),
        None => Err(fault_of(&read_number(item))),
    }
}

/// Why an item that is no time is none.
fn fault_of(number: &Result<Frac, NumberFault>) -> NumberFault
    ensures value { result ≡ fault_of number.now }
{
    match number {
        Ok(_) => NumberFault::BadNumber,
        Err(fault) => *fault,
    }
}

/// The hours of a time of a day, counted from 1970-01-01.
fn hours_of_day(day: i32, hours: Frac) -> Frac
    requires day { IsDay day }
    requires hours { IsReadTime hours }
    ensures value { result ≡ hours_of_day day hours }
{
    match Frac::whole(24 * day).add(hours) {
        Ok(sum) => sum,
        Err(_) => Frac::zero(),
    }
}

/// The x of a time on an axis.
fn x_on(axis: &Axis, time: Result<Frac, NumberFault>) -> Result<Frac, NumberFault>
    requires axis { IsAxis axis.now }
    requires hours { IfOk time IsReadTime }
    ensures value { result ≡ x_on axis.now time }
{
    match (axis, time) {
        (Axis::Days(day), Ok(hours)) => Ok(hours_of_day(*day, hours)),
        (_, time) => time,
    }
}

/// A time and a value on an axis as a pair.
fn entry_pair<'a>(axis: &Axis, time: &'a [u8], value: &'a [u8]) -> PairRead<'a>
    requires axis { IsAxis axis.now }
    ensures value { pair_now result ≡ entry_pair axis.now time.now value.now }
{
    PairRead {
        x_item: time,
        x: x_on(axis, time_read(time)),
        y_item: value,
        y: read_number(value),
    }
}

/// An entry at the head of some items.
#[derive(Clone, Copy)]
pub(crate) struct EntryCut<'a> {
    /// The axis from this entry on.
    pub(crate) axis: Axis,
    pub(crate) time: &'a [u8],
    pub(crate) value: &'a [u8],
    /// How many items it is.
    pub(crate) taken: usize,
}

/// The entry at the head of items, of which there is one or more: a time and a value, or a date, a
/// time and a value. None where there is none.
#[tactic(auto, unfolding(crate::specs::Series::entries_of))]
fn first_entry<'a>(axis: Axis, found: &[&'a [u8]]) -> Option<EntryCut<'a>>
    requires some { 0 < length found.now }
    requires axis { IsAxis axis }
    ensures value { entries_of axis (texts found.now) ≡ after_cut (texts found.now) result }
    ensures within { IfSome result (λ cut. cut.taken ≤ length found.now) }
    ensures further { IfSome result (λ cut. 0 < cut.taken) }
    ensures axis { IfSome result (λ cut. IsAxis cut.axis) }
{
    match found {
        [first, second] => match read_date(first) {
            Some(_) => None,
            None => plain_entry(axis, first, second),
        },
        [first, second, third, ..] => match read_date(first) {
            Some(day) => dated_entry(axis, day, second, third),
            None => plain_entry(axis, first, second),
        },
        _ => None,
    }
}

/// A time and a value without a date; None where the axis wants one.
fn plain_entry<'a>(axis: Axis, time: &'a [u8], value: &'a [u8]) -> Option<EntryCut<'a>>
    requires axis { IsAxis axis }
    ensures value { (found : List (List ℕ)) → entry_then (axis_at axis None) time.now value.now
        (λ after. entries_of after (drop 2 found)) ≡ after_cut found result }
    ensures taken { IfSome result (λ cut. cut.taken ≡ 2) }
    ensures axis { IfSome result (λ cut. IsAxis cut.axis) }
{
    let axis = axis_at(axis, None)?;
    Some(EntryCut {
        axis,
        time,
        value,
        taken: 2,
    })
}

/// A time and a value behind a date; None where a date may not stand.
fn dated_entry<'a>(axis: Axis, day: i32, time: &'a [u8], value: &'a [u8]) -> Option<EntryCut<'a>>
    requires axis { IsAxis axis }
    requires day { IsDay day }
    ensures value { (found : List (List ℕ)) → entry_then (axis_at axis (Some day)) time.now
        value.now (λ after. entries_of after (drop 3 found)) ≡ after_cut found result }
    ensures taken { IfSome result (λ cut. cut.taken ≡ 3) }
    ensures axis { IfSome result (λ cut. IsAxis cut.axis) }
{
    let axis = axis_at(axis, Some(day))?;
    Some(EntryCut {
        axis,
        time,
        value,
        taken: 3,
    })
}

/// The entries of a line, and the axis after them.
#[derive(Drop)]
pub(crate) struct EntriesRead<'a> {
    pub(crate) pairs: Vec<PairRead<'a>>,
    pub(crate) axis: Axis,
}

/// Items as whole entries; None where they are not so many.
pub(crate) fn entries_of<'a>(
    alloc: Global,
    axis: Axis,
    found: &[&'a [u8]],
) -> Result<Option<EntriesRead<'a>>, NoMemory>
    requires axis { IsAxis axis }
    ensures value { IfOk result (λ read.
        option_map entries_now read ≡ entries_of axis (texts found.now)) }
    ensures axis { IfOk result (λ read. IfSome read (λ entries. IsAxis entries.axis)) }
{
    let mut pairs = Vec::new(alloc);
    let mut axis = axis;
    let mut at = 0;
    'entries: while at < found.len() {
        let Some(cut) = first_entry(axis, &found[at..]) else {
            return Ok(None);
        };
        let pair = entry_pair(&cut.axis, cut.time, cut.value);
        let Ok(()) = pairs.push(pair) else {
            return Err(NoMemory);
        };
        axis = cut.axis;
        at += cut.taken;
    }
    Ok(Some(EntriesRead { pairs, axis }))
}

/// The items of a line behind its name, of which there is one or more, as entries.
pub(crate) fn behind_name<'a>(
    alloc: Global,
    axis: Axis,
    found: &[&'a [u8]],
) -> Result<Option<EntriesRead<'a>>, NoMemory>
    requires axis { IsAxis axis }
    ensures value { IfOk result (λ read.
        option_map entries_now read ≡ behind_name axis (texts found.now)) }
    ensures axis { IfOk result (λ read. IfSome read (λ entries. IsAxis entries.axis)) }
{
    match found {
        [_, items @ ..] => {
            if items.is_empty() {
                return Ok(None);
            }
            entries_of(alloc, axis, items)
        }
        _ => Ok(None),
    }
}
