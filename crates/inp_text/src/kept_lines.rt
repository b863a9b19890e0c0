//! The lines that are kept of each section.
ghost use Rattle.std.specs.Prelude.{◌≡◌, [], ◌++◌, ◌∷◌, OnOk, OnErr};
ghost use Rattle.inp_text.specs.internal.Represents.{kept};
ghost use Rattle.inp_text.specs.internal.AddsLine.{AddsLine, Unchanged};
ghost use Rattle.inp_text.specs.declared.section_kind.SectionKind.{SectionKind as Kind};

use crate::section_kind::SectionKind;
use crate::source_line::SourceLine;
use byte_edge::NoMemory;
use std::alloc::Global;

/// The kept lines of each section, in the order of the file.
#[derive(Debug, Drop)]
pub struct KeptLines {
    pub(crate) options: Vec<SourceLine>,
    pub(crate) gages: Vec<SourceLine>,
    pub(crate) junctions: Vec<SourceLine>,
    pub(crate) outfalls: Vec<SourceLine>,
    pub(crate) dividers: Vec<SourceLine>,
    pub(crate) storage: Vec<SourceLine>,
    pub(crate) conduits: Vec<SourceLine>,
    pub(crate) pumps: Vec<SourceLine>,
    pub(crate) orifices: Vec<SourceLine>,
    pub(crate) weirs: Vec<SourceLine>,
    pub(crate) outlets: Vec<SourceLine>,
    pub(crate) controls: Vec<SourceLine>,
    pub(crate) curves: Vec<SourceLine>,
    pub(crate) series: Vec<SourceLine>,
}

impl KeptLines {
    /// No lines.
    pub(crate) fn new(alloc: Global) -> KeptLines
        ensures { (kind : Kind) → kept result kind ≡ [] }
    {
        KeptLines {
            options: Vec::new(alloc),
            gages: Vec::new(alloc),
            junctions: Vec::new(alloc),
            outfalls: Vec::new(alloc),
            dividers: Vec::new(alloc),
            storage: Vec::new(alloc),
            conduits: Vec::new(alloc),
            pumps: Vec::new(alloc),
            orifices: Vec::new(alloc),
            weirs: Vec::new(alloc),
            outlets: Vec::new(alloc),
            controls: Vec::new(alloc),
            curves: Vec::new(alloc),
            series: Vec::new(alloc),
        }
    }

    /// The allocator that they were made with.
    pub(crate) fn allocator(&self) -> Global {
        *self.options.allocator()
    }

    /// The kept lines of a section.
    pub(crate) fn of(&self, kind: SectionKind) -> &[SourceLine]
        ensures { result.now ≡ kept self.now kind }
    {
        match kind {
            SectionKind::Options => self.options.as_slice(),
            SectionKind::Gages => self.gages.as_slice(),
            SectionKind::Junctions => self.junctions.as_slice(),
            SectionKind::Outfalls => self.outfalls.as_slice(),
            SectionKind::Dividers => self.dividers.as_slice(),
            SectionKind::Storage => self.storage.as_slice(),
            SectionKind::Conduits => self.conduits.as_slice(),
            SectionKind::Pumps => self.pumps.as_slice(),
            SectionKind::Orifices => self.orifices.as_slice(),
            SectionKind::Weirs => self.weirs.as_slice(),
            SectionKind::Outlets => self.outlets.as_slice(),
            SectionKind::Controls => self.controls.as_slice(),
            SectionKind::Curves => self.curves.as_slice(),
            SectionKind::Series => self.series.as_slice(),
        }
    }

    /// Keeps one more line of a section.
    pub(crate) fn push(&mut self, kind: SectionKind, line: SourceLine) -> Result<(), NoMemory>
        ensures added { OnOk result (AddsLine self.old self.new kind line) }
        ensures unchanged { OnErr result (Unchanged self.old self.new) }
    {
        match kind {
            SectionKind::Options => push_line(&mut self.options, line),
            SectionKind::Gages => push_line(&mut self.gages, line),
            SectionKind::Junctions => push_line(&mut self.junctions, line),
            SectionKind::Outfalls => push_line(&mut self.outfalls, line),
            SectionKind::Dividers => push_line(&mut self.dividers, line),
            SectionKind::Storage => push_line(&mut self.storage, line),
            SectionKind::Conduits => push_line(&mut self.conduits, line),
            SectionKind::Pumps => push_line(&mut self.pumps, line),
            SectionKind::Orifices => push_line(&mut self.orifices, line),
            SectionKind::Weirs => push_line(&mut self.weirs, line),
            SectionKind::Outlets => push_line(&mut self.outlets, line),
            SectionKind::Controls => push_line(&mut self.controls, line),
            SectionKind::Curves => push_line(&mut self.curves, line),
            SectionKind::Series => push_line(&mut self.series, line),
        }
    }
}

/// Adds a line to some lines.
fn push_line(lines: &mut Vec<SourceLine>, line: SourceLine) -> Result<(), NoMemory>
    ensures added { OnOk result (lines.new.items ≡ lines.old.items ++ line ∷ []) }
    ensures unchanged { OnErr result (lines.new.items ≡ lines.old.items) }
{
    match lines.push(line) {
        Ok(()) => Ok(()),
        Err(_) => Err(NoMemory),
    }
}
