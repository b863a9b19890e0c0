//! The pairs of one line of a table.
ghost use Rattle.std.specs.Prelude.{◌≡◌, ◌++◌, [], None, map, option_map, IfOk, OnOk};
ghost use Rattle.num_text.specs.Numbers.{number_if_read};
ghost use Rattle.curves_series.specs.Pairs.{is_no_number, is_too_large, is_not_above, is_bad_pair};
ghost use Rattle.curves_series.specs.Pairs.{has_bad_pair, last_x, first_too_large, points_of};
ghost use Rattle.curves_series.specs.Pairs.{with_point};
ghost use Rattle.curves_series.specs.Pairs.{pairs_read};
ghost use Rattle.curves_series.specs.internal.Views.{pair_now, bad_now, TakesLine};

use byte_edge::NoMemory;
use exact_fraction::frac::Frac;
use num_text::error::NumberFault;
use rule_types::{Cause, Point, Refusal};
use std::alloc::Global;

/// A pair x y: each item with the number that is read of it.
#[derive(Clone, Copy)]
pub(crate) struct PairRead<'a> {
    pub(crate) x_item: &'a [u8],
    pub(crate) x: Result<Frac, NumberFault>,
    pub(crate) y_item: &'a [u8],
    pub(crate) y: Result<Frac, NumberFault>,
}

/// The line of a table, for its refusal.
#[derive(Clone, Copy)]
pub(crate) struct BadLine<'a> {
    /// The number of the line.
    pub(crate) number: u64,
    /// Why its pairs are refused.
    pub(crate) cause: Cause,
    /// The name of the table.
    pub(crate) name: &'a [u8],
}

impl BadLine<'_> {
    /// The refusal.
    pub(crate) fn refusal(&self, alloc: Global) -> Result<Refusal, NoMemory>
        ensures value { IfOk result (λ refusal. refusal ≡ bad_now self.now) }
    {
        Refusal::new(alloc, self.number, self.cause, self.name)
    }
}

/// Whether an item is no number.
fn is_no_number(read: &Result<Frac, NumberFault>) -> bool
    ensures value { result ≡ is_no_number read.now }
{
    match read {
        Ok(_) => false,
        Err(NumberFault::BadNumber) => true,
        Err(NumberFault::TooLarge) => false,
    }
}

/// Whether an item is a number that is too large.
fn is_too_large(read: &Result<Frac, NumberFault>) -> bool
    ensures value { result ≡ is_too_large read.now }
{
    match read {
        Ok(_) => false,
        Err(NumberFault::BadNumber) => false,
        Err(NumberFault::TooLarge) => true,
    }
}

/// The number of an item, if it is one that is not too large.
fn number_if_read(read: &Result<Frac, NumberFault>) -> Option<Frac>
    ensures value { result ≡ number_if_read read.now }
{
    match read {
        Ok(number) => Some(*number),
        Err(_) => None,
    }
}

/// Whether an x is not above the x before, where both are known.
fn is_not_above(before: &Option<Frac>, x: &Option<Frac>) -> bool
    ensures value { result ≡ is_not_above before.now x.now }
{
    match (before, x) {
        (Some(before), Some(x)) => !before.is_less(x),
        _ => false,
    }
}

/// Whether a pair has an item that is no number, or an x that is not above the x before.
fn is_bad_pair(before: &Option<Frac>, pair: &PairRead<'_>) -> bool
    ensures value { result ≡ is_bad_pair before.now (pair_now pair.now) }
{
    is_no_number(&pair.x) || is_no_number(&pair.y) || is_not_above(before, &number_if_read(&pair.x))
}

/// Whether one of the pairs is bad, behind the x before.
#[tactic(auto, unfolding(crate::specs::Pairs::has_bad_pair))]
fn has_bad_pair(before: &Option<Frac>, pairs: &[PairRead<'_>]) -> bool
    ensures value { result ≡ has_bad_pair before.now (map pair_now pairs.now) }
{
    let mut last = *before;
    for pair in pairs {
        if is_bad_pair(&last, pair) {
            return true;
        }
        last = number_if_read(&pair.x);
    }
    false
}

/// The x of the last pair, and where there is none the x before.
#[tactic(auto, unfolding(crate::specs::Pairs::last_x))]
fn last_x(before: &Option<Frac>, pairs: &[PairRead<'_>]) -> Option<Frac>
    ensures value { result ≡ last_x before.now (map pair_now pairs.now) }
{
    let mut last = *before;
    for pair in pairs {
        last = number_if_read(&pair.x);
    }
    last
}

/// The first item that is a number that is too large.
#[tactic(auto, unfolding(crate::specs::Pairs::first_too_large))]
fn first_too_large<'a>(pairs: &[PairRead<'a>]) -> Option<&'a [u8]>
    ensures value { option_map (λ item. item.now) result
        ≡ first_too_large (map pair_now pairs.now) }
{
    for pair in pairs {
        if is_too_large(&pair.x) {
            return Some(pair.x_item);
        }
        if is_too_large(&pair.y) {
            return Some(pair.y_item);
        }
    }
    None
}

/// Adds the point of a pair, where both of its items are numbers.
fn push_point(points: &mut Vec<Point>, pair: &PairRead<'_>) -> Result<(), NoMemory>
    ensures value { OnOk result (points.new.items
        ≡ points.old.items ++ with_point pair.now.x pair.now.y []) }
{
    match (&pair.x, &pair.y) {
        (Ok(x), Ok(y)) => match points.push(Point { x: *x, y: *y }) {
            Ok(()) => Ok(()),
            Err(_) => Err(NoMemory),
        },
        _ => Ok(()),
    }
}

/// Adds the points of pairs.
#[tactic(auto, unfolding(crate::specs::Pairs::points_of))]
fn push_points(points: &mut Vec<Point>, pairs: &[PairRead<'_>]) -> Result<(), NoMemory>
    ensures value { OnOk result (points.new.items
        ≡ points.old.items ++ points_of (map pair_now pairs.now)) }
{
    for pair in pairs {
        push_point(points, pair)?;
    }
    Ok(())
}

/// The points of the lines of a table so far, and the x that the next one is compared with.
#[derive(Drop)]
pub(crate) struct PointsSoFar {
    pub(crate) points: Vec<Point>,
    pub(crate) last: Option<Frac>,
}

impl PointsSoFar {
    /// The points of no line.
    pub(crate) fn new(alloc: Global) -> PointsSoFar
        ensures points { result.points.items ≡ [] }
        ensures last { result.last ≡ None }
    {
        PointsSoFar {
            points: Vec::new(alloc),
            last: None,
        }
    }

    /// Takes the pairs of the next line, or gives its refusal.
    #[tactic(auto, unfolding(crate::specs::Pairs::pairs_read))]
    pub(crate) fn take(
        &mut self,
        alloc: Global,
        bad: &BadLine<'_>,
        pairs: &[PairRead<'_>],
    ) -> Result<Option<Refusal>, NoMemory>
        ensures value { IfOk result (λ refusal.
            TakesLine (pairs_read (bad_now bad.now) self.old.last (map pair_now pairs.now))
            refusal self.old.points.items self.new.points.items self.new.last) }
    {
        if has_bad_pair(&self.last, pairs) {
            return Ok(Some(bad.refusal(alloc)?));
        }
        if let Some(item) = first_too_large(pairs) {
            let refusal = Refusal::new(alloc, bad.number, Cause::NumberTooLarge, item)?;
            return Ok(Some(refusal));
        }
        push_points(&mut self.points, pairs)?;
        self.last = last_x(&self.last, pairs);
        Ok(None)
    }
}
