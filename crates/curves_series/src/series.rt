//! Time series as their lines give them.
ghost use Rattle.std.specs.Prelude.{◌≡◌, [], None, Some, ◌++◌, map, IfOk, OnOk};
ghost use Rattle.std.specs.Prelude.{codes};
ghost use Rattle.std.specs.List.{list_any};
ghost use Rattle.std.specs.Str.{str_eq_ignore_ascii_case};
ghost use Rattle.curves_series.specs.Series.{is_file_word, names_file, series_items, series_line};
ghost use Rattle.curves_series.specs.Series.{series_lines, IsAxis};
ghost use Rattle.curves_series.specs.declared.axis.Axis.TheVariants.{Open};
ghost use Rattle.curves_series.specs.internal.Views.{texts, bad_now, lines_now, TakesSeries};
ghost use Rattle.curves_series.specs.internal.Views.{SeriesLinesRead};

use crate::axis::Axis;
use crate::entry::behind_name;
use crate::pair::{BadLine, PointsSoFar};
use byte_edge::NoMemory;
use inp_text::{SourceLine, cut_line};
use rule_types::{Cause, Point, Refusal};
use std::alloc::Global;

/// Whether a line of a series names a file.
fn names_file(alloc: Global, line: &SourceLine) -> Result<bool, NoMemory>
    ensures value { IfOk result (λ file. file ≡ names_file line.now) }
{
    let found = cut_line(alloc, line.bytes.as_slice())?;
    Ok(is_file_word(&found))
}

/// Whether an item is the word FILE, in any case.
fn says_file(item: &[u8]) -> bool
    ensures value { result ≡ str_eq_ignore_ascii_case item.now (codes "FILE") }
{
    item.eq_ignore_ascii_case(b"FILE")
}

/// Whether the second item of a line is the word FILE.
fn is_file_word(found: &[&[u8]]) -> bool
    ensures value { result ≡ is_file_word (texts found.now) }
{
    match found {
        [_, item, ..] => says_file(item),
        _ => false,
    }
}

/// Whether a series is a file series: one of its lines names a file.
pub(crate) fn is_file_series(alloc: Global, lines: &[&SourceLine]) -> Result<bool, NoMemory>
    ensures value { IfOk result (λ file. file ≡ list_any names_file (lines_now lines.now)) }
{
    for line in lines {
        if names_file(alloc, line)? {
            return Ok(true);
        }
    }
    Ok(false)
}

/// The points of the lines of a series so far, and the axis after them.
#[derive(Drop)]
pub(crate) struct SeriesSoFar {
    pub(crate) so_far: PointsSoFar,
    pub(crate) axis: Axis,
}

impl SeriesSoFar {
    /// Takes the items of the next line of a series, or gives its refusal.
    #[tactic(auto, unfolding(crate::specs::Series::series_items))]
    fn take_items(
        &mut self,
        alloc: Global,
        bad: &BadLine<'_>,
        found: &[&[u8]],
    ) -> Result<Option<Refusal>, NoMemory>
        requires axis { IsAxis self.old.axis }
        ensures value { IfOk result (λ refusal. TakesSeries
            (series_items (bad_now bad.now) self.old.axis self.old.so_far.last (texts found.now))
            refusal self.old.so_far.points.items self.new.so_far.points.items
            self.new.so_far.last self.new.axis) }
        ensures axis { IsAxis self.new.axis }
    {
        match behind_name(alloc, self.axis, found)? {
            Some(entries) => {
                self.axis = entries.axis;
                self.so_far.take(alloc, bad, &entries.pairs)
            }
            None => Ok(Some(bad.refusal(alloc)?)),
        }
    }

    /// Takes the next line of a series, or gives its refusal.
    #[tactic(auto, unfolding(crate::specs::Series::series_line))]
    fn take_line(
        &mut self,
        alloc: Global,
        name: &[u8],
        line: &SourceLine,
    ) -> Result<Option<Refusal>, NoMemory>
        requires axis { IsAxis self.old.axis }
        ensures value { IfOk result (λ refusal. TakesSeries
            (series_line name.now self.old.axis self.old.so_far.last line.now)
            refusal self.old.so_far.points.items self.new.so_far.points.items
            self.new.so_far.last self.new.axis) }
        ensures axis { IsAxis self.new.axis }
    {
        let bad = BadLine {
            number: line.number,
            cause: Cause::BadSeries,
            name,
        };
        let found = cut_line(alloc, line.bytes.as_slice())?;
        self.take_items(alloc, &bad, &found)
    }
}

/// The points of the lines of a series and its axis, or the first refusal.
pub(crate) fn series_lines(
    alloc: Global,
    name: &[u8],
    lines: &[&SourceLine],
) -> Result<Result<SeriesSoFar, Refusal>, NoMemory>
    ensures value { IfOk result (λ read.
        SeriesLinesRead (series_lines name.now Open None (lines_now lines.now)) read) }
{
    let mut series = SeriesSoFar {
        so_far: PointsSoFar::new(alloc),
        axis: Axis::Open,
    };
    for line in lines {
        match series.take_line(alloc, name, line)? {
            Some(refusal) => return Ok(Err(refusal)),
            None => {}
        }
    }
    Ok(Ok(series))
}
