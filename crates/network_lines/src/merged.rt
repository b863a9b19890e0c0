//! The lines of several sections in the order of the file.
ghost use Rattle.std.specs.Prelude.{◌≡◌, ℕ, [], ◌∷◌, ◌++◌, ◌≤◌, drop, length, map, List};
ghost use Rattle.std.specs.Prelude.{IfOk, OnOk};
ghost use Rattle.inp_text.specs.Merging.{SectionLine, in_section, merged, merged_onto};
ghost use Rattle.inp_text.specs.internal.Represents.{kept};
ghost use Rattle.network_lines.specs.Objects.{object_lines};
ghost use Rattle.network_lines.specs.internal.Views.{line_now, lines_now};

use byte_edge::NoMemory;
use inp_text::{SectionKind, Sections, SourceLine};
use std::alloc::Global;

/// A line of a section.
#[derive(Clone, Copy)]
pub(crate) struct ObjectLine<'a> {
    pub(crate) section: SectionKind,
    pub(crate) line: &'a SourceLine,
}

/// The lines of all objects in the order of the file. It takes time in proportion to the lines,
/// once for each section.
pub(crate) fn object_lines(
    alloc: Global,
    sections: &Sections,
) -> Result<Vec<ObjectLine<'_>>, NoMemory>
    ensures value { IfOk result (λ found. lines_now found.items
        ≡ object_lines (kept sections.now.kept)) }
{
    let found = with_section(alloc, sections, SectionKind::Outlets, Vec::new(alloc))?;
    let found = with_section(alloc, sections, SectionKind::Weirs, found)?;
    let found = with_section(alloc, sections, SectionKind::Orifices, found)?;
    let found = with_section(alloc, sections, SectionKind::Pumps, found)?;
    let found = with_section(alloc, sections, SectionKind::Conduits, found)?;
    let found = with_section(alloc, sections, SectionKind::Storage, found)?;
    let found = with_section(alloc, sections, SectionKind::Dividers, found)?;
    let found = with_section(alloc, sections, SectionKind::Outfalls, found)?;
    let found = with_section(alloc, sections, SectionKind::Junctions, found)?;
    with_section(alloc, sections, SectionKind::Gages, found)
}

/// The lines of a section merged with others, which are let go.
fn with_section<'a>(
    alloc: Global,
    sections: &'a Sections,
    section: SectionKind,
    others: Vec<ObjectLine<'a>>,
) -> Result<Vec<ObjectLine<'a>>, NoMemory>
    ensures { IfOk result (λ found. lines_now found.items
        ≡ merged (map (in_section section) (kept sections.now.kept section))
        (lines_now others.entry.items)) }
{
    merged(alloc, section, sections.lines(section), others.as_slice())
}

/// The lines of a section merged with others by their numbers.
fn merged<'a>(
    alloc: Global,
    section: SectionKind,
    first: &'a [SourceLine],
    others: &[ObjectLine<'a>],
) -> Result<Vec<ObjectLine<'a>>, NoMemory>
    ensures { IfOk result (λ found. lines_now found.items
        ≡ merged (map (in_section section) first.now) (lines_now others.now)) }
{
    let mut all = Vec::new(alloc);
    match push_merged(&mut all, section, first, others) {
        Ok(()) => Ok(all),
        Err(_) => {
            drop(all);
            Err(NoMemory)
        }
    }
}

/// Adds the lines of a section merged with others by their numbers.
fn push_merged<'a>(
    all: &mut Vec<ObjectLine<'a>>,
    section: SectionKind,
    first: &'a [SourceLine],
    others: &[ObjectLine<'a>],
) -> Result<(), NoMemory>
    ensures { OnOk result (lines_now all.new.items ≡ lines_now all.old.items
        ++ merged (map (in_section section) first.now) (lines_now others.now)) }
{
    let mut at = 0;
    for line in first {
        at = push_before(all, line.number, others, at)?;
        push_line(all, ObjectLine { section, line })?;
    }
    push_rest(all, others, at)
}

/// Adds those of the others, from a place on, that stand before a line of this number, and returns
/// the place behind them.
fn push_before<'a>(
    all: &mut Vec<ObjectLine<'a>>,
    number: u64,
    others: &[ObjectLine<'a>],
    at: usize,
) -> Result<usize, NoMemory>
    requires within { at ≤ length others.now }
    ensures within { IfOk result (λ rest. rest ≤ length others.now) }
    ensures value { IfOk result (λ rest. (line : SectionLine)
        (f : List SectionLine → List SectionLine) → line.line.number ≡ number
        → lines_now all.new.items ++ line ∷ f (lines_now (drop rest others.now))
        ≡ lines_now all.old.items ++ merged_onto line f (lines_now (drop at others.now))) }
{
    for index in at..others.len() {
        let other = others[index];
        if other.line.number >= number {
            return Ok(index);
        }
        push_line(all, other)?;
    }
    Ok(others.len())
}

/// Adds the others from a place on.
fn push_rest<'a>(
    all: &mut Vec<ObjectLine<'a>>,
    others: &[ObjectLine<'a>],
    at: usize,
) -> Result<(), NoMemory>
    requires within { at ≤ length others.now }
    ensures { OnOk result (lines_now all.new.items
        ≡ lines_now all.old.items ++ lines_now (drop at others.now)) }
{
    for index in at..others.len() {
        push_line(all, others[index])?;
    }
    Ok(())
}

/// Adds a line.
fn push_line<'a>(all: &mut Vec<ObjectLine<'a>>, line: ObjectLine<'a>) -> Result<(), NoMemory>
    ensures { OnOk result (lines_now all.new.items
        ≡ lines_now all.old.items ++ line_now line.entry ∷ []) }
{
    match all.push(line) {
        Ok(()) => Ok(()),
        Err(_) => Err(NoMemory),
    }
}
