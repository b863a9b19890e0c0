//! The used tables of an input file.
ghost use Rattle.std.specs.Prelude.{◌≡◌, List, IfSome, IsSome};
ghost use Rattle.inp_text.specs.Sections.{Line, section_lines};
ghost use Rattle.inp_text.specs.declared.section_kind.SectionKind.TheVariants as kinds;
ghost use Rattle.inp_text.specs.internal.Represents.{Represents};
ghost use Rattle.curves_series.specs.Reading.{tables_in, Reads};
ghost use Rattle.rule_types.specs.Tables.{curve_at, series_at, IsPointList};
ghost use Rattle.rule_meaning.specs.StraightLines.{line_value, series_x};

use crate::reading::read_tables;
use crate::values::{hours_of, line_value};
use exact_fraction::error::Overflow;
use exact_fraction::frac::Frac;
use exact_fraction::moment::Moment;
use inp_text::{SectionKind, Sections};
use list_types::Bytes;
use rule_types::{CurveNo, Point, ReadFault, SeriesNo};
use std::alloc::Global;
use std::marker::Model;

/// A curve, with its points by rising x.
#[derive(Drop)]
pub(crate) struct Curve {
    pub(crate) name: Bytes,
    pub(crate) points: Vec<Point>,
}

impl Model for Curve {
    ghost use Rattle.rule_types.specs.Tables.{CurveTable};

    ghost Value = { CurveTable };

    ghost view = { λ curve. record { name = curve.name; points = curve.points.items } };
}

/// A time series, with its points by rising x.
#[derive(Drop)]
pub(crate) struct Series {
    pub(crate) name: Bytes,
    pub(crate) dated: bool,
    pub(crate) points: Vec<Point>,
}

impl Model for Series {
    ghost use Rattle.rule_types.specs.Tables.{SeriesTable};

    ghost Value = { SeriesTable };

    ghost view = { λ series. record {
      name = series.name;
      dated = series.dated;
      points = series.points.items;
    } };
}

/// The used curves and series of an input file, by their numbers: their places, from 0, among all
/// tables of their section, used or not (SWMM 5.2 manual, [CURVES] and [TIMESERIES]).
#[derive(Drop)]
pub struct Tables {
    pub(crate) curves: Vec<Option<Curve>>,
    pub(crate) series: Vec<Option<Series>>,
}

impl Model for Tables {
    ghost use Rattle.rule_types.specs.Tables.{TableSet};
    ghost use Rattle.curves_series.specs.Reading.{HavePoints};

    ghost Value = { TableSet };

    ghost view = { λ tables. record {
      curves = tables.curves.items;
      series = tables.series.items;
    } };

    ghost invariant = { λ tables. HavePoints (record {
      curves = tables.curves.items;
      series = tables.series.items;
    }) };
}

impl Tables {
    /// The used tables of an input file, or the lowest refusal on a line of one of them among
    /// BadCurve, BadSeries and NumberTooLarge; and NoMemory. A table is used where a line of
    /// [CONTROLS] ends with `= CURVE` or `= TIMESERIES` and a name that finds it; a used series
    /// that names a file is not read. It takes time in proportion to the lines, and for each line
    /// one look-up of a name (SWMM 5.2 manual, [CURVES] and [TIMESERIES]).
    pub fn read(alloc: Global, sections: &Sections) -> Result<Tables, ReadFault>
        ensures value { (earlier : List Line) → Represents sections.now earlier
            → Reads (tables_in (section_lines kinds.Controls earlier)
            (section_lines kinds.Curves earlier) (section_lines kinds.Series earlier)) result }
    {
        let controls = sections.lines(SectionKind::Controls);
        let curves = sections.lines(SectionKind::Curves);
        let series = sections.lines(SectionKind::Series);
        read_tables(alloc, controls, curves, series)
    }

    /// The value of a curve at `x`, at least 0: Overflow exactly where a step of the straight line
    /// between two points does not fit. It takes no memory, and time in proportion to the logarithm
    /// of the number of points (SWMM 5.2 manual, [CURVES]).
    pub fn curve_value(&self, curve: CurveNo, x: Frac) -> Result<Frac, Overflow>
        requires exists { IsSome (curve_at self.now curve.index) }
        ensures value { IfSome (curve_at self.now curve.index)
            (λ table. result ≡ line_value table.points x) }
    {
        match &self.curves[curve.index as usize] {
            Some(table) => line_value(&table.points, &x),
            None => Ok(Frac::zero()),
        }
    }

    /// The value of a series at a moment, at least 0: Overflow exactly where a step of the straight
    /// line between two points does not fit. It takes no memory, and time in proportion to the
    /// logarithm of the number of points (SWMM 5.2 manual, [TIMESERIES]).
    pub fn series_value(
        &self,
        series: SeriesNo,
        start: Moment,
        at: Moment,
    ) -> Result<Frac, Overflow>
        requires exists { IsSome (series_at self.now series.index) }
        ensures value { IfSome (series_at self.now series.index)
            (λ table. result ≡ line_value table.points (series_x table start at)) }
    {
        match &self.series[series.index as usize] {
            Some(table) => line_value(&table.points, &series_x(table, start, at)),
            None => Ok(Frac::zero()),
        }
    }

    /// The points of a curve, by rising x. It takes no memory.
    pub fn curve_points(&self, curve: CurveNo) -> &[Point]
        requires exists { IsSome (curve_at self.now curve.index) }
        ensures value { IfSome (curve_at self.now curve.index)
            (λ table. result.now ≡ table.points) }
        ensures points { IsPointList result.now }
    {
        match &self.curves[curve.index as usize] {
            Some(table) => &table.points,
            None => &[],
        }
    }

    /// The points of a series, by rising x. It takes no memory.
    pub fn series_points(&self, series: SeriesNo) -> &[Point]
        requires exists { IsSome (series_at self.now series.index) }
        ensures value { IfSome (series_at self.now series.index)
            (λ table. result.now ≡ table.points) }
        ensures points { IsPointList result.now }
    {
        match &self.series[series.index as usize] {
            Some(table) => &table.points,
            None => &[],
        }
    }

    /// Whether the x of a series are counted from 1970-01-01, and not from the start.
    pub fn is_dated(&self, series: SeriesNo) -> bool
        requires exists { IsSome (series_at self.now series.index) }
        ensures value { IfSome (series_at self.now series.index)
            (λ table. result ≡ table.dated) }
    {
        match &self.series[series.index as usize] {
            Some(table) => table.dated,
            None => false,
        }
    }
}

/// The x of a moment in a series.
#[tactic(auto, unfolding(rule_meaning::specs::StraightLines::series_x))]
fn series_x(table: &Series, start: Moment, at: Moment) -> Frac
    ensures value { result ≡ series_x table.now start at }
{
    if table.dated {
        return hours_of(at.seconds());
    }
    hours_of(at.seconds() - start.seconds())
}
