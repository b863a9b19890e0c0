//! The tables of a section, by the names of its lines.
ghost use Rattle.std.specs.Prelude.{◌≡◌, [], ◌∷◌, ◌++◌, ◌<◌, length, map, slice_set, get_or};
ghost use Rattle.std.specs.Prelude.{IfOk, OnOk};
ghost use Rattle.curves_series.specs.Groups.{name_of, with_line, groups_of};
ghost use Rattle.curves_series.specs.internal.Views.{lines_now, groups_now, IsEven};

use byte_edge::NoMemory;
use inp_text::{SourceLine, first_item};
use object_index::NameTable;
use std::alloc::Global;

/// The lines of one table.
#[derive(Drop)]
pub(crate) struct LinesOf<'a> {
    pub(crate) lines: Vec<&'a SourceLine>,
}

/// The tables of a section: their names, in the order of their first lines, and beside them the
/// lines of each.
#[derive(Drop)]
pub(crate) struct Groups<'a> {
    pub(crate) names: NameTable,
    pub(crate) tables: Vec<LinesOf<'a>>,
}

/// The name of the table that a line belongs to.
#[tactic(auto, using(crate::proofs::FirstItems::first_is, crate::proofs::FirstItems::none_first))]
fn name_of(line: &SourceLine) -> &[u8]
    ensures value { result.now ≡ name_of line.now }
{
    match first_item(line.bytes.as_slice()) {
        Some(item) => item,
        None => &[],
    }
}

/// The tables of the lines of a section. A line costs one look-up of its name.
#[tactic(auto, unfolding(crate::specs::Groups::with_lines))]
pub(crate) fn groups_of(alloc: Global, lines: &[SourceLine]) -> Result<Groups<'_>, NoMemory>
    ensures value { IfOk result (λ groups. groups_now groups ≡ groups_of lines.now) }
    ensures even { IfOk result IsEven }
{
    let mut groups = Groups {
        names: NameTable::new(alloc),
        tables: Vec::new(alloc),
    };
    for line in lines {
        groups.push(alloc, line)?;
    }
    Ok(groups)
}

impl<'a> Groups<'a> {
    /// Puts a line to its table, or makes a new table of it.
    fn push(&mut self, alloc: Global, line: &'a SourceLine) -> Result<(), NoMemory>
        requires even { IsEven self.old }
        ensures value { OnOk result (groups_now self.new
            ≡ with_line line.now (groups_now self.old)) }
        ensures even { OnOk result (IsEven self.new) }
    {
        let name = name_of(line);
        match self.names.position(name) {
            Some(number) => push_line(&mut self.tables, number as usize, line),
            None => self.push_table(alloc, name, line),
        }
    }

    /// The name of the table at a place; NoMemory where it is past 2^32.
    pub(crate) fn name_at(&self, at: usize) -> Result<&[u8], NoMemory>
        requires within { at < length self.now.names }
        ensures value { IfOk result (λ name. name.now ≡ get_or self.now.names at []) }
    {
        let Ok(number) = u32::try_from(at) else {
            return Err(NoMemory);
        };
        match self.names.name(number) {
            Some(name) => Ok(name),
            None => Err(NoMemory),
        }
    }

    /// Makes a new table of a line.
    fn push_table(
        &mut self,
        alloc: Global,
        name: &[u8],
        line: &'a SourceLine,
    ) -> Result<(), NoMemory>
        ensures names { OnOk result (self.new.names ≡ self.old.names ++ name.now ∷ []) }
        ensures tables { OnOk result (
            map (λ table. lines_now table.lines.items) self.new.tables.items
            ≡ map (λ table. lines_now table.lines.items) self.old.tables.items
            ++ (line.now ∷ []) ∷ []) }
    {
        const MOST: u64 = 1 << 32;
        if self.names.len() as u64 >= MOST {
            return Err(NoMemory);
        }
        let Ok(_) = self.names.add(name) else {
            return Err(NoMemory);
        };
        let mut lines = Vec::new(alloc);
        let Ok(()) = lines.push(line) else {
            return Err(NoMemory);
        };
        let Ok(()) = self.tables.push(LinesOf { lines }) else {
            return Err(NoMemory);
        };
        Ok(())
    }
}

/// Adds a line to the table at a place.
fn push_line<'a>(
    tables: &mut Vec<LinesOf<'a>>,
    place: usize,
    line: &'a SourceLine,
) -> Result<(), NoMemory>
    requires within { place < length tables.old.items }
    ensures tables { OnOk result (map (λ table. lines_now table.lines.items) tables.new.items
        ≡ slice_set (map (λ table. lines_now table.lines.items) tables.old.items) place
        (get_or (map (λ table. lines_now table.lines.items) tables.old.items) place []
        ++ line.now ∷ [])) }
{
    match tables[place].lines.push(line) {
        Ok(()) => Ok(()),
        Err(_) => Err(NoMemory),
    }
}
