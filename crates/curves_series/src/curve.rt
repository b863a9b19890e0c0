//! Curves as their lines give them.
ghost use Rattle.std.specs.Prelude.{◌≡◌, [], true, None, Some, ◌++◌, map, option_map, drop, IfOk};
ghost use Rattle.inp_text.specs.Items.{items};
ghost use Rattle.curves_series.specs.Pairs.{pairs_read};
ghost use Rattle.curves_series.specs.Curves.{number_pair, number_pairs, values_of, has_two};
ghost use Rattle.curves_series.specs.Curves.{has_point, items_read, curve_line, curve_lines};
ghost use Rattle.curves_series.specs.internal.Views.{pair_now, texts, bad_now, lines_now};
ghost use Rattle.curves_series.specs.internal.Views.{TakesLine, LinesRead};

use crate::pair::{BadLine, PairRead, PointsSoFar};
use byte_edge::NoMemory;
use inp_text::{SourceLine, cut_line};
use num_text::numbers::read_number;
use rule_types::{Cause, Point, Refusal};
use std::alloc::Global;

/// Two items as a pair of numbers.
fn number_pair<'a>(x: &'a [u8], y: &'a [u8]) -> PairRead<'a>
    ensures value { pair_now result ≡ number_pair x.now y.now }
{
    PairRead {
        x_item: x,
        x: read_number(x),
        y_item: y,
        y: read_number(y),
    }
}

/// Items as pairs of numbers, two at a time; None where their number is odd.
fn number_pairs<'a>(
    alloc: Global,
    found: &[&'a [u8]],
) -> Result<Option<Vec<PairRead<'a>>>, NoMemory>
    ensures value { IfOk result (λ pairs.
        option_map (λ read. map pair_now read.items) pairs ≡ number_pairs (texts found.now)) }
{
    let mut pairs = Vec::new(alloc);
    let mut at = 0;
    'pairing: while at + 1 < found.len() {
        let pair = number_pair(found[at], found[at + 1]);
        let Ok(()) = pairs.push(pair) else {
            return Err(NoMemory);
        };
        at += 2;
    }
    if at < found.len() {
        return Ok(None);
    }
    Ok(Some(pairs))
}

/// Whether there are two items or more.
fn has_two(found: &[&[u8]]) -> bool
    ensures value { result ≡ has_two (texts found.now) }
{
    match found {
        [_, _, ..] => true,
        _ => false,
    }
}

/// The items of a line behind the name of its curve and, on the curve's first line, its type word.
fn values_of<'b, 'a>(is_first: bool, found: &'b [&'a [u8]]) -> &'b [&'a [u8]]
    ensures value { texts result.now ≡ values_of is_first (texts found.now) }
{
    let from = if is_first { 2 } else { 1 };
    if found.len() < from {
        return &[];
    }
    &found[from..]
}

/// Whether one of the lines of a curve has two items or more for points.
#[tactic(auto, unfolding(crate::specs::Curves::has_point))]
pub(crate) fn has_point(alloc: Global, lines: &[&SourceLine]) -> Result<bool, NoMemory>
    ensures value { IfOk result (λ pointed. pointed ≡ has_point true (lines_now lines.now)) }
{
    let mut is_first = true;
    for line in lines {
        let found = cut_line(alloc, line.bytes.as_slice())?;
        if has_two(values_of(is_first, &found)) {
            return Ok(true);
        }
        is_first = false;
    }
    Ok(false)
}

/// Takes the items of the next line of a curve, or gives its refusal.
#[tactic(auto, unfolding(crate::specs::Curves::items_read))]
fn take_items(
    so_far: &mut PointsSoFar,
    alloc: Global,
    bad: &BadLine<'_>,
    is_first: bool,
    pointed: bool,
    found: &[&[u8]],
) -> Result<Option<Refusal>, NoMemory>
    ensures value { IfOk result (λ refusal.
        TakesLine (items_read (bad_now bad.now) is_first pointed so_far.old.last (texts found.now))
        refusal so_far.old.points.items so_far.new.points.items so_far.new.last) }
{
    if is_first && (!has_two(found) || !pointed) {
        return Ok(Some(bad.refusal(alloc)?));
    }
    match number_pairs(alloc, values_of(is_first, found))? {
        Some(pairs) => so_far.take(alloc, bad, &pairs),
        None => Ok(Some(bad.refusal(alloc)?)),
    }
}

/// Takes the next line of a curve, or gives its refusal.
#[tactic(auto, unfolding(crate::specs::Curves::curve_line))]
fn take_line(
    so_far: &mut PointsSoFar,
    alloc: Global,
    name: &[u8],
    is_first: bool,
    pointed: bool,
    line: &SourceLine,
) -> Result<Option<Refusal>, NoMemory>
    ensures value { IfOk result (λ refusal.
        TakesLine (curve_line name.now is_first pointed so_far.old.last line.now)
        refusal so_far.old.points.items so_far.new.points.items so_far.new.last) }
{
    let bad = BadLine {
        number: line.number,
        cause: Cause::BadCurve,
        name,
    };
    let found = cut_line(alloc, line.bytes.as_slice())?;
    take_items(so_far, alloc, &bad, is_first, pointed, &found)
}

/// The points of the lines of a curve, or the first refusal.
pub(crate) fn curve_lines(
    alloc: Global,
    name: &[u8],
    pointed: bool,
    lines: &[&SourceLine],
) -> Result<Result<Vec<Point>, Refusal>, NoMemory>
    ensures value { IfOk result (λ read.
        LinesRead (curve_lines name.now true pointed None (lines_now lines.now)) read) }
{
    let mut so_far = PointsSoFar::new(alloc);
    let mut is_first = true;
    for line in lines {
        match take_line(&mut so_far, alloc, name, is_first, pointed, line)? {
            Some(refusal) => return Ok(Err(refusal)),
            None => is_first = false,
        }
    }
    Ok(Ok(so_far.points))
}
