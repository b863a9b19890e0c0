//! The sections of an input file.
ghost use Rattle.std.specs.Prelude.{◌≡◌, [], ◌∷◌, ◌<◌, ◌+◌, ◌^◌, List, None, Some, option_map};
ghost use Rattle.std.specs.Prelude.{OnOk, OnErr, is_ok, if◌then◌else◌};
ghost use Rattle.inp_text.specs.Sections.{Line, section_lines, first_long as first_of};
ghost use Rattle.inp_text.specs.internal.AddsLine.{AddsLine, Unchanged};
ghost use Rattle.inp_text.specs.internal.Represents.{kept as kept_of, Represents};

use crate::heading::{front_item, is_bracketed, section_named};
use crate::kept_lines::KeptLines;
use crate::section_kind::SectionKind;
use crate::source_line::SourceLine;
use byte_edge::NoMemory;
use list_types::Bytes;
use std::alloc::Global;

/// The lines of the sections of an input file that are read, taken line by line. A section opens
/// with a heading, which is matched by its bracket and first four letters, ignoring case; sections
/// come in any order and may come again (SWMM 5.2 manual, appendix D).
#[derive(Debug, Drop)]
pub struct Sections {
    count: u64,
    section: Option<SectionKind>,
    kept: KeptLines,
    first_long: Option<u64>,
}

impl Sections {
    /// The sections of no lines, which take no memory; the lines that are kept later are held in
    /// memory from `alloc`.
    pub fn new(alloc: Global) -> Sections
        ensures none { Represents result [] }
        ensures count { result.count ≡ 0 }
    {
        Sections {
            count: 0,
            section: None,
            kept: KeptLines::new(alloc),
            first_long: None,
        }
    }

    /// Takes the next line, None for one that was too long. A line that was too long is no heading
    /// and has no items. Headings, lines without items and lines of sections that are not read are
    /// not kept. After NoMemory the sections represent the lines before. It takes time in
    /// proportion to the line.
    pub fn push(&mut self, line: Option<&[u8]>) -> Result<(), NoMemory>
        requires few { self.old.count < 2 ^ 32 }
        ensures taken { OnOk result ((earlier : List Line) → Represents self.old earlier
            → Represents self.new (option_map (λ bytes. bytes.now) line.entry ∷ earlier)) }
        ensures unchanged { OnErr result ((earlier : List Line) → Represents self.old earlier
            → Represents self.new earlier) }
        ensures count { self.new.count
            ≡ (if is_ok result then self.old.count + 1 else self.old.count) }
    {
        match line {
            Some(bytes) => self.push_text(bytes),
            None => {
                self.push_long();
                Ok(())
            }
        }
    }

    /// The lines of a section that have items and are no headings, in the order of the file, with
    /// their numbers from 1. It takes no memory and the same time however many there are.
    pub fn lines(&self, kind: SectionKind) -> &[SourceLine]
        ensures value { result.now ≡ kept_of self.now.kept kind }
        ensures lines { (earlier : List Line) → Represents self.now earlier
            → result.now ≡ section_lines kind earlier }
    {
        self.kept.of(kind)
    }

    /// The number, from 1, of the first line that was too long.
    pub fn first_long(&self) -> Option<u64>
        ensures value { result ≡ self.now.first_long }
        ensures first { (earlier : List Line) → Represents self.now earlier
            → result ≡ first_of earlier }
    {
        self.first_long
    }

    /// Takes a line of bytes.
    fn push_text(&mut self, line: &[u8]) -> Result<(), NoMemory>
        requires few { self.old.count < 2 ^ 32 }
        ensures taken { OnOk result ((earlier : List Line) → Represents self.old earlier
            → Represents self.new (Some line.now ∷ earlier)) }
        ensures unchanged { OnErr result ((earlier : List Line) → Represents self.old earlier
            → Represents self.new earlier) }
        ensures count { self.new.count
            ≡ (if is_ok result then self.old.count + 1 else self.old.count) }
    {
        let item = front_item(line);
        if is_bracketed(item) {
            self.section = section_named(item);
            self.count += 1;
            return Ok(());
        }
        if item.is_empty() {
            self.count += 1;
            return Ok(());
        }
        match self.section {
            Some(kind) => self.keep(kind, line),
            None => {
                self.count += 1;
                Ok(())
            }
        }
    }

    /// Takes a line that its section keeps.
    fn keep(&mut self, kind: SectionKind, line: &[u8]) -> Result<(), NoMemory>
        requires few { self.old.count < 2 ^ 32 }
        ensures added { OnOk result (AddsLine self.old.kept self.new.kept kind
            (record { number = self.old.count + 1; bytes = line.now })) }
        ensures unchanged { OnErr result (Unchanged self.old.kept self.new.kept) }
        ensures count { self.new.count
            ≡ (if is_ok result then self.old.count + 1 else self.old.count) }
        ensures section { self.new.section ≡ self.old.section }
        ensures first_long { self.new.first_long ≡ self.old.first_long }
    {
        let Ok(copy) = Vec::from_slice(self.kept.allocator(), line) else {
            return Err(NoMemory);
        };
        let number = self.count + 1;
        let kept = SourceLine {
            number,
            bytes: Bytes::from_vec(copy),
        };
        match self.kept.push(kind, kept) {
            Ok(()) => {
                self.count = number;
                Ok(())
            }
            Err(_) => Err(NoMemory),
        }
    }

    /// Takes a line that was too long.
    fn push_long(&mut self)
        requires few { self.old.count < 2 ^ 32 }
        ensures taken { (earlier : List Line) → Represents self.old earlier
            → Represents self.new (None ∷ earlier) }
        ensures count { self.new.count ≡ self.old.count + 1 }
    {
        self.count += 1;
        if self.first_long.is_none() {
            self.first_long = Some(self.count);
        }
    }
}
