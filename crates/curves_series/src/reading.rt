//! The reading of the used tables of an input file.
ghost use Rattle.std.specs.Prelude.{◌≡◌, ◌<◌, [], ◌∷◌, ◌++◌, None, Ok, length, All, IfOk};
ghost use Rattle.std.specs.Prelude.{IfSome, OnOk, if◌then◌else◌};
ghost use Rattle.rule_types.specs.Refusals.{earlier};
ghost use Rattle.rule_types.specs.Tables.{IsPointList};
ghost use Rattle.curves_series.specs.Curves.{curve_of};
ghost use Rattle.curves_series.specs.Groups.{groups_of};
ghost use Rattle.std.specs.Prelude.{◌&&◌, not};
ghost use Rattle.std.specs.List.{list_any};
ghost use Rattle.curves_series.specs.Series.{series_of, names_file, is_file_series, is_dated};
ghost use Rattle.curves_series.specs.Reading.{held_of, refusal_of, held_from, refusal_from};
ghost use Rattle.curves_series.specs.Reading.{some_read, curve_read, series_read, tables_in, Reads};
ghost use Rattle.curves_series.specs.internal.Views.{lines_now, groups_now, group_at, IsEven};
ghost use Rattle.curves_series.specs.internal.Views.{HaveLines, Adds};

use crate::axis::Axis;
use crate::curve::{curve_lines, has_point};
use crate::groups::{Groups, groups_of};
use crate::series::{is_file_series, series_lines};
use crate::tables::{Curve, Series, Tables};
use crate::used::used_marks;
use byte_edge::NoMemory;
use inp_text::SourceLine;
use list_types::Bytes;
use rule_types::{ReadFault, Refusal, earlier_refusal};
use std::alloc::Global;
use std::mem;

/// A copy of a name.
fn copied(alloc: Global, name: &[u8]) -> Result<Bytes, NoMemory>
    ensures value { IfOk result (λ copy. copy ≡ name.now) }
{
    match Vec::from_slice(alloc, name) {
        Ok(copy) => Ok(Bytes::from_vec(copy)),
        Err(_) => Err(NoMemory),
    }
}

/// A curve where it is used, or its first refusal.
#[tactic(auto, using(crate::proofs::Pointed::curve_now_fits), unfolding(crate::specs::Curves::curve_of),)]
fn read_curve(
    alloc: Global,
    used: bool,
    name: &[u8],
    lines: &[&SourceLine],
) -> Result<Result<Option<Curve>, Refusal>, NoMemory>
    requires some { 0 < length lines.now }
    ensures value { IfOk result (λ read. read ≡ (if used
        then some_read (curve_of (record { name = name.now; lines = lines_now lines.now }))
        else Ok None)) }
    ensures points { IfOk result (λ read. IfOk read (λ table.
        IfSome table (λ curve. IsPointList curve.points))) }
{
    if !used {
        return Ok(Ok(None));
    }
    let pointed = has_point(alloc, lines)?;
    match curve_lines(alloc, name, pointed, lines)? {
        Ok(points) => {
            let name = copied(alloc, name)?;
            Ok(Ok(Some(Curve { name, points })))
        }
        Err(refusal) => Ok(Err(refusal)),
    }
}

/// A series where it is used and is no file series, or its first refusal.
#[tactic(auto, using(crate::proofs::Pointed::series_now_fits), unfolding(crate::specs::Series::series_of),)]
fn read_series(
    alloc: Global,
    used: bool,
    name: &[u8],
    lines: &[&SourceLine],
) -> Result<Result<Option<Series>, Refusal>, NoMemory>
    requires some { 0 < length lines.now }
    ensures value { IfOk result (λ read. read
        ≡ (if used && not (list_any names_file (lines_now lines.now))
        then some_read (series_of (record { name = name.now; lines = lines_now lines.now }))
        else Ok None)) }
    ensures points { IfOk result (λ read. IfOk read (λ table.
        IfSome table (λ series. IsPointList series.points))) }
{
    if !used {
        return Ok(Ok(None));
    }
    if is_file_series(alloc, lines)? {
        return Ok(Ok(None));
    }
    match series_lines(alloc, name, lines)? {
        Ok(read) => {
            let name = copied(alloc, name)?;
            Ok(Ok(Some(Series {
                name,
                dated: is_dated(&read.axis),
                points: read.so_far.points,
            })))
        }
        Err(refusal) => Ok(Err(refusal)),
    }
}

/// Whether the entries of a series have dates.
fn is_dated(axis: &Axis) -> bool
    ensures value { result ≡ is_dated axis.now }
{
    match axis {
        Axis::Days(_) => true,
        _ => false,
    }
}

/// What is held of tables so far, and the lowest refusal on their lines.
#[derive(Drop)]
struct Held<T> {
    held: Vec<Option<T>>,
    refusal: Option<Refusal>,
}

impl<T: Drop> Held<T> {
    /// No tables.
    fn new(alloc: Global) -> Held<T>
        ensures held { result.held.items ≡ [] }
        ensures refusal { result.refusal ≡ None }
    {
        Held {
            held: Vec::new(alloc),
            refusal: None,
        }
    }

    /// Adds what is read of the next table.
    #[tactic(auto, using(crate::proofs::HeldTables::alone))]
    fn add(&mut self, read: Result<Option<T>, Refusal>) -> Result<(), NoMemory>
        ensures held { OnOk result (self.new.held.items
            ≡ self.old.held.items ++ held_of read ∷ []) }
        ensures refusal { OnOk result (self.new.refusal
            ≡ earlier self.old.refusal (refusal_of read)) }
    {
        match read {
            Ok(table) => match self.held.push(table) {
                Ok(()) => Ok(()),
                Err(_) => Err(NoMemory),
            },
            Err(refusal) => {
                let before = mem::replace(&mut self.refusal, None);
                self.refusal = earlier_refusal(before, Some(refusal));
                match self.held.push(None) {
                    Ok(()) => Ok(()),
                    Err(_) => Err(NoMemory),
                }
            }
        }
    }
}

/// The curve at a place, where it is used, or its first refusal.
fn curve_at(
    alloc: Global,
    used: bool,
    groups: &Groups<'_>,
    at: usize,
) -> Result<Result<Option<Curve>, Refusal>, NoMemory>
    requires within { at < length groups.now.tables.items }
    requires even { IsEven groups.now }
    requires lines { HaveLines (groups_now groups.now) }
    ensures value { IfOk result (λ read. read ≡ (if used
        then some_read (curve_of (group_at groups.now at))
        else Ok None)) }
    ensures points { IfOk result (λ read. IfOk read (λ table.
        IfSome table (λ curve. IsPointList curve.points))) }
{
    let name = groups.name_at(at)?;
    let table = &groups.tables[at];
    read_curve(alloc, used, name, &table.lines)
}

/// The series at a place, where it is used and is no file series, or its first refusal.
fn series_at(
    alloc: Global,
    used: bool,
    groups: &Groups<'_>,
    at: usize,
) -> Result<Result<Option<Series>, Refusal>, NoMemory>
    requires within { at < length groups.now.tables.items }
    requires even { IsEven groups.now }
    requires lines { HaveLines (groups_now groups.now) }
    ensures value { IfOk result (λ read. read
        ≡ (if used && not (is_file_series (group_at groups.now at))
        then some_read (series_of (group_at groups.now at))
        else Ok None)) }
    ensures points { IfOk result (λ read. IfOk read (λ table.
        IfSome table (λ series. IsPointList series.points))) }
{
    let name = groups.name_at(at)?;
    let table = &groups.tables[at];
    read_series(alloc, used, name, &table.lines)
}

/// Adds what is read of the curve at a place.
fn add_curve_at(
    read: &mut Held<Curve>,
    alloc: Global,
    used: bool,
    groups: &Groups<'_>,
    at: usize,
) -> Result<(), NoMemory>
    requires within { at < length groups.now.tables.items }
    requires even { IsEven groups.now }
    requires lines { HaveLines (groups_now groups.now) }
    ensures added { OnOk result (Adds read.old.held.items read.old.refusal read.new.held.items
        read.new.refusal (if used then some_read (curve_of (group_at groups.now at))
        else Ok None) (λ curve. IsPointList curve.points)) }
{
    let table = curve_at(alloc, used, groups, at)?;
    read.add(table)
}

/// The used curves of a section, and the lowest refusal on their lines.
fn read_curves(
    alloc: Global,
    controls: &[SourceLine],
    groups: &Groups<'_>,
) -> Result<Held<Curve>, NoMemory>
    requires even { IsEven groups.now }
    requires lines { HaveLines (groups_now groups.now) }
    ensures held { IfOk result (λ read. read.held.items
        ≡ held_from (curve_read controls.now (groups_now groups.now)) 0 (groups_now groups.now)) }
    ensures refusal { IfOk result (λ read. read.refusal
        ≡ refusal_from (curve_read controls.now (groups_now groups.now)) 0
        (groups_now groups.now)) }
    ensures points { IfOk result (λ read. All (λ curve.
        IfSome curve (λ table. IsPointList table.points)) read.held.items) }
{
    let marks = used_marks(alloc, b"CURVE", controls, &groups.names)?;
    let mut read = Held::new(alloc);
    for at in 0..groups.tables.len() {
        let used = marks[at];
        add_curve_at(&mut read, alloc, used, groups, at)?;
    }
    Ok(read)
}

/// Adds what is read of the series at a place.
fn add_series_at(
    read: &mut Held<Series>,
    alloc: Global,
    used: bool,
    groups: &Groups<'_>,
    at: usize,
) -> Result<(), NoMemory>
    requires within { at < length groups.now.tables.items }
    requires even { IsEven groups.now }
    requires lines { HaveLines (groups_now groups.now) }
    ensures added { OnOk result (Adds read.old.held.items read.old.refusal read.new.held.items
        read.new.refusal (if used && not (is_file_series (group_at groups.now at))
        then some_read (series_of (group_at groups.now at)) else Ok None)
        (λ series. IsPointList series.points)) }
{
    let table = series_at(alloc, used, groups, at)?;
    read.add(table)
}

/// The used series of a section that are no file series, and the lowest refusal on their lines.
fn read_all_series(
    alloc: Global,
    controls: &[SourceLine],
    groups: &Groups<'_>,
) -> Result<Held<Series>, NoMemory>
    requires even { IsEven groups.now }
    requires lines { HaveLines (groups_now groups.now) }
    ensures held { IfOk result (λ read. read.held.items
        ≡ held_from (series_read controls.now (groups_now groups.now)) 0 (groups_now groups.now)) }
    ensures refusal { IfOk result (λ read. read.refusal
        ≡ refusal_from (series_read controls.now (groups_now groups.now)) 0
        (groups_now groups.now)) }
    ensures points { IfOk result (λ read. All (λ series.
        IfSome series (λ table. IsPointList table.points)) read.held.items) }
{
    let marks = used_marks(alloc, b"TIMESERIES", controls, &groups.names)?;
    let mut read = Held::new(alloc);
    for at in 0..groups.tables.len() {
        let used = marks[at];
        add_series_at(&mut read, alloc, used, groups, at)?;
    }
    Ok(read)
}

/// The used curves of some lines, and the lowest refusal on these lines.
#[tactic(auto, using(crate::proofs::HeldTables::lines_some))]
fn used_curves(
    alloc: Global,
    controls: &[SourceLine],
    lines: &[SourceLine],
) -> Result<Held<Curve>, NoMemory>
    ensures held { IfOk result (λ read. read.held.items
        ≡ held_from (curve_read controls.now (groups_of lines.now)) 0 (groups_of lines.now)) }
    ensures refusal { IfOk result (λ read. read.refusal
        ≡ refusal_from (curve_read controls.now (groups_of lines.now)) 0 (groups_of lines.now)) }
    ensures points { IfOk result (λ read. All (λ curve.
        IfSome curve (λ table. IsPointList table.points)) read.held.items) }
{
    let groups = groups_of(alloc, lines)?;
    read_curves(alloc, controls, &groups)
}

/// The used series of some lines that are no file series, and the lowest refusal on these lines.
#[tactic(auto, using(crate::proofs::HeldTables::lines_some))]
fn used_series(
    alloc: Global,
    controls: &[SourceLine],
    lines: &[SourceLine],
) -> Result<Held<Series>, NoMemory>
    ensures held { IfOk result (λ read. read.held.items
        ≡ held_from (series_read controls.now (groups_of lines.now)) 0 (groups_of lines.now)) }
    ensures refusal { IfOk result (λ read. read.refusal
        ≡ refusal_from (series_read controls.now (groups_of lines.now)) 0 (groups_of lines.now)) }
    ensures points { IfOk result (λ read. All (λ series.
        IfSome series (λ table. IsPointList table.points)) read.held.items) }
{
    let groups = groups_of(alloc, lines)?;
    read_all_series(alloc, controls, &groups)
}

/// The used tables of an input file with these lines, or the lowest refusal.
#[tactic(auto, unfolding(crate::specs::Reading::tables_in))]
fn tables_of(
    alloc: Global,
    controls: &[SourceLine],
    curves: &[SourceLine],
    series: &[SourceLine],
) -> Result<Result<Tables, Refusal>, NoMemory>
    ensures value { IfOk result (λ read. read ≡ tables_in controls.now curves.now series.now) }
{
    let curves_read = used_curves(alloc, controls, curves)?;
    let series_read = used_series(alloc, controls, series)?;
    match earlier_refusal(curves_read.refusal, series_read.refusal) {
        Some(refusal) => Ok(Err(refusal)),
        None => Ok(Ok(Tables {
            curves: curves_read.held,
            series: series_read.held,
        })),
    }
}

/// The used tables of an input file with these lines, or why there are none.
pub(crate) fn read_tables(
    alloc: Global,
    controls: &[SourceLine],
    curves: &[SourceLine],
    series: &[SourceLine],
) -> Result<Tables, ReadFault>
    ensures value { Reads (tables_in controls.now curves.now series.now) result }
{
    match tables_of(alloc, controls, curves, series) {
        Ok(Ok(tables)) => Ok(tables),
        Ok(Err(refusal)) => Err(ReadFault::Refused(refusal)),
        Err(_) => Err(ReadFault::NoMemory),
    }
}
