//! What names find among the tables of an input file.
ghost use Rattle.std.specs.Prelude.{◌≡◌, List, map, slice_get, IfOk};
ghost use Rattle.std.specs.List.{list_any};
ghost use Rattle.inp_text.specs.Sections.{Line, section_lines};
ghost use Rattle.inp_text.specs.declared.section_kind.SectionKind.TheVariants.{Curves, Series};
ghost use Rattle.inp_text.specs.internal.Represents.{Represents};
ghost use Rattle.curves_series.specs.Names.{named_tables, curve_named, series_named, Finds};
ghost use Rattle.curves_series.specs.Names.{series_numbered};
ghost use Rattle.curves_series.specs.Groups.{groups_of, names_of};
ghost use Rattle.curves_series.specs.Series.{names_file};
ghost use Rattle.curves_series.specs.internal.Views.{lines_now};

use crate::fault::TableFault;
use crate::groups::{LinesOf, groups_of};
use crate::series::is_file_series;
use byte_edge::NoMemory;
use inp_text::{SectionKind, Sections, SourceLine};
use object_index::{Found, NameTable};
use rule_types::{CurveNo, SeriesNo};
use std::alloc::Global;
use std::marker::Model;

/// The names of the curves and of the series of an input file, used or not, made once for many
/// look-ups. It holds each name three times.
#[derive(Drop)]
pub struct TableNames {
    curves: NameTable,
    series: NameTable,
    file_series: Vec<bool>,
}

impl Model for TableNames {
    ghost use Rattle.curves_series.specs.Names.{NamedTables};

    ghost Value = { NamedTables };

    ghost view = { λ names. record {
      curves = names.curves;
      series = names.series;
      file_series = names.file_series.items;
    } };
}

impl TableNames {
    /// The names of the tables of an input file. A line costs one look-up of its name; NoMemory is
    /// the one error, also where a section has more than 2^32 tables.
    pub fn new(alloc: Global, sections: &Sections) -> Result<TableNames, NoMemory>
        ensures value { (earlier : List Line) → Represents sections.now earlier
            → IfOk result (λ names. names
            ≡ named_tables (section_lines Curves earlier) (section_lines Series earlier)) }
    {
        let curves = sections.lines(SectionKind::Curves);
        let series = sections.lines(SectionKind::Series);
        TableNames::of(alloc, curves, series)
    }

    /// The names of the tables of these lines.
    #[tactic(auto, using(crate::proofs::GroupPuts::read_off))]
    fn of(
        alloc: Global,
        curves: &[SourceLine],
        series: &[SourceLine],
    ) -> Result<TableNames, NoMemory>
        ensures value { IfOk result (λ names. names ≡ named_tables curves.now series.now) }
    {
        let groups = groups_of(alloc, series)?;
        match file_marks(alloc, &groups.tables) {
            Ok(file_series) => TableNames::with_curves(alloc, curves, groups.names, file_series),
            Err(_) => Err(NoMemory),
        }
    }

    /// The names of the tables of the curves' lines beside those of series.
    fn with_curves(
        alloc: Global,
        curves: &[SourceLine],
        series: NameTable,
        file_series: Vec<bool>,
    ) -> Result<TableNames, NoMemory>
        ensures value { IfOk result (λ names. names ≡ record {
          curves = names_of (groups_of curves.now);
          series = series;
          file_series = file_series.items;
        }) }
    {
        match names_of(alloc, curves) {
            Ok(curves) => Ok(TableNames {
                curves,
                series,
                file_series,
            }),
            Err(_) => Err(NoMemory),
        }
    }

    /// The curve that a name finds: the one with the same bytes, and failing that the only one that
    /// is equal when the case of ASCII letters is ignored. Unknown exactly where there is none or
    /// the name is ambiguous; and NoMemory.
    pub fn curve(&self, alloc: Global, name: &[u8]) -> Result<CurveNo, TableFault>
        ensures value { Finds (curve_named self.now name.now) result }
    {
        match self.curves.find(alloc, name) {
            Ok(Found::At(index)) => Ok(CurveNo { index }),
            Ok(Found::Nothing) => Err(TableFault::Unknown),
            Ok(Found::Several) => Err(TableFault::Unknown),
            Err(_) => Err(TableFault::NoMemory),
        }
    }

    /// The series that a name finds, in the same way. FileSeries exactly where it is a file series;
    /// Unknown exactly where there is none or the name is ambiguous; and NoMemory.
    pub fn series(&self, alloc: Global, name: &[u8]) -> Result<SeriesNo, TableFault>
        ensures value { Finds (series_named self.now name.now) result }
    {
        match self.series.find(alloc, name) {
            Ok(Found::At(index)) => self.numbered(index),
            Ok(Found::Nothing) => Err(TableFault::Unknown),
            Ok(Found::Several) => Err(TableFault::Unknown),
            Err(_) => Err(TableFault::NoMemory),
        }
    }

    /// The series of a number, if it is no file series.
    fn numbered(&self, index: u32) -> Result<SeriesNo, TableFault>
        ensures value { result ≡ series_numbered index (slice_get self.now.file_series index) }
    {
        match self.file_series.get(index as usize) {
            Some(true) => Err(TableFault::FileSeries),
            _ => Ok(SeriesNo { index }),
        }
    }
}

/// The names of the tables of these lines.
#[tactic(auto, using(crate::proofs::GroupPuts::names_in))]
fn names_of(alloc: Global, lines: &[SourceLine]) -> Result<NameTable, NoMemory>
    ensures value { IfOk result (λ names. names ≡ names_of (groups_of lines.now)) }
{
    let groups = groups_of(alloc, lines)?;
    Ok(groups.names)
}

/// Which tables are file series.
fn file_marks(alloc: Global, tables: &[LinesOf<'_>]) -> Result<Vec<bool>, NoMemory>
    ensures value { IfOk result (λ marks. marks.items
        ≡ map (λ table. list_any names_file (lines_now table.lines.items)) tables.now) }
{
    let mut marks = Vec::new(alloc);
    for table in tables {
        let file = is_file_series(alloc, &table.lines)?;
        let Ok(()) = marks.push(file) else {
            return Err(NoMemory);
        };
    }
    Ok(marks)
}

/// The curve that a name finds among all curves of an input file, used or not. Unknown exactly
/// where there is none or the name is ambiguous; and NoMemory. It reads the names of all tables:
/// for many look-ups make `TableNames` once.
pub fn find_curve(alloc: Global, sections: &Sections, name: &[u8]) -> Result<CurveNo, TableFault>
    ensures value { (earlier : List Line) → Represents sections.now earlier
        → Finds (curve_named (named_tables (section_lines Curves earlier)
        (section_lines Series earlier)) name.now) result }
{
    match TableNames::new(alloc, sections) {
        Ok(names) => names.curve(alloc, name),
        Err(_) => Err(TableFault::NoMemory),
    }
}

/// The series that a name finds among all series of an input file, used or not. FileSeries exactly
/// where it is a file series; Unknown exactly where there is none or the name is ambiguous; and
/// NoMemory. It reads the names of all tables: for many look-ups make `TableNames` once.
pub fn find_series(alloc: Global, sections: &Sections, name: &[u8]) -> Result<SeriesNo, TableFault>
    ensures value { (earlier : List Line) → Represents sections.now earlier
        → Finds (series_named (named_tables (section_lines Curves earlier)
        (section_lines Series earlier)) name.now) result }
{
    match TableNames::new(alloc, sections) {
        Ok(names) => names.series(alloc, name),
        Err(_) => Err(TableFault::NoMemory),
    }
}
