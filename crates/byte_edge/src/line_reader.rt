//! The lines of a slot, one after the other.
ghost use Rattle.std.specs.Prelude.{◌≡◌, ◌<◌, ◌≤◌, ℕ, List, [], Option, false, length, IsTrue, IfOk};
ghost use Rattle.std.specs.Borrow.{sem};
ghost use Rattle.std.specs.Io.BufRead.{Rests};
ghost use Rattle.byte_edge.specs.Devices.{IsCallOn, SlotsUnchanged};
ghost use Rattle.byte_edge.specs.Lines.{Whole};
ghost use Rattle.byte_edge.specs.ReaderState.{has_line, ReportsLine};
ghost use Rattle.byte_edge.specs.Answers.{Answers, GivesAtMost, is_fault};
ghost use Rattle.byte_edge.specs.internal.Reading.{Advances};
ghost use Rattle.byte_edge.specs.contracts.line_reader.LineReader.{the_row};

use super::block::Block;
use super::gather::{Gathered, gather};
use super::partial_line::PartialLine;
use super::{Files, NoMemory, ReadEnd};
use std::alloc::Global;
use std::marker::Model;

/// Reads the lines of a slot, within a budget of bytes.
///
/// A line ends at LF or at the end of the slot, and one CR before that end is no part of it. The
/// budget counts all bytes, ends of lines too. A reader keeps the bytes that it has taken and not
/// yet given, what is left of its budget, whether a read gave 0, and whether it is spent. A line of
/// which one read gave all bytes is lent where it was read, and any other is put together.
#[derive(Drop)]
pub struct LineReader {
    slot: usize,
    limit: usize,
    room: u64,
    block: Block,
    line: PartialLine,
    /// Whether the last line is that of `block`.
    in_block: bool,
    ended: bool,
    spent: bool,
}

impl Model for LineReader {
    ghost use Rattle.std.specs.Prelude.{if◌then◌else◌};
    ghost use Rattle.byte_edge.specs.ReaderState.{ReaderState};
    ghost use Rattle.byte_edge.specs.internal.Reading.{IsSound};

    ghost Value = { ReaderState };

    ghost view = { λ r. record {
      slot = r.slot;
      limit = r.limit;
      room = r.room;
      held = r.block.held;
      line = if r.in_block then r.block.line else r.line.bytes;
      ended = r.ended;
      spent = r.spent;
    } };

    ghost invariant = { λ r. IsSound r.slot r.limit r.line.most r.ended r.block.held };
}

impl LineReader {
    /// A reader of the lines of `slot`, of up to `limit` bytes each, within `budget` bytes. It
    /// takes the memory for a block of 65,536 bytes and one line; later calls take none.
    pub fn new(
        alloc: Global,
        slot: usize,
        limit: usize,
        budget: u64,
    ) -> Result<LineReader, NoMemory>
        requires slot { slot < 3 }
        requires limit { limit ≤ 65536 }

        ensures slot { IfOk result (λ reader. reader.slot ≡ slot) }
        ensures limit { IfOk result (λ reader. reader.limit ≡ limit) }
        ensures room { IfOk result (λ reader. reader.room ≡ budget) }
        ensures held { IfOk result (λ reader. reader.held ≡ []) }
        ensures ended { IfOk result (λ reader. reader.ended ≡ false) }
        ensures spent { IfOk result (λ reader. reader.spent ≡ false) }
    {
        let block = Block::new(alloc)?;
        let line = PartialLine::new(alloc, limit + 3)?;
        Ok(LineReader {
            slot,
            limit,
            room: budget,
            block,
            line,
            in_block: false,
            ended: false,
            spent: false,
        })
    }

    /// Whether the reader is spent: after `TooLong` and after `Fault`.
    pub fn spent(&self) -> bool
        ensures { result ≡ self.now.spent }
    {
        self.spent
    }

    /// Whether the next line, or the end, is given without a read: an LF is held, or a read gave 0
    /// before.
    ///
    /// It costs the same however many bytes are held.
    pub fn has_line(&self) -> bool
        ensures { result ≡ has_line self.now }
    {
        self.ended || self.block.line_feed().is_some()
    }

    /// Takes the next line into the reader. True where there is one.
    fn advance<F: Files>(&mut self, files: &mut F) -> Result<bool, ReadEnd>
        requires slot { self.old.slot < 3 }
        requires opened { F.is_open files.old self.old.slot }
        requires going { self.old.spent ≡ false }

        ensures answer { Advances self.old self.new
            (F.left files.old self.old.slot) (F.left files.new self.old.slot) result }
        ensures unread { IsTrue (has_line self.old)
            → SlotsUnchanged
            (F.left files.old) (F.left files.new) (F.faults files.old) (F.faults files.new) }

        ensures call { IsCallOn self.old.slot (is_fault result)
            (F.is_open files.old) (F.is_open files.new) (F.held files.old) (F.held files.new)
            (F.left files.old) (F.left files.new) (F.faults files.old) (F.faults files.new) }
    {
        if self.ended {
            return Ok(false);
        }
        if self.take_held_line() {
            return Ok(true);
        }
        self.gather_line(files)
    }

    /// Takes the next line out of the block, if it is there with its LF and both the limit and the
    /// budget are enough for all its bytes. Where it does not, all is as before. No byte is copied.
    fn take_held_line(&mut self) -> bool
        requires going { self.old.spent ≡ false }
        requires awake { self.old.ended ≡ false }
        ensures taken { IsTrue result → (left : Option (List ℕ))
            → ReportsLine (Whole self.new.line) self.old self.new left left }
        ensures short { IsTrue result → length self.new.line ≤ self.old.limit }
        ensures same { result ≡ false → self.new ≡ self.old }
    {
        let Some(at) = self.block.line_feed() else {
            return false;
        };
        if at >= self.limit {
            return false;
        }
        let count = at + 1;
        if count as u64 > self.room {
            return false;
        }
        self.room -= count as u64;
        self.block.take_line(count);
        self.in_block = true;
        true
    }

    /// Puts the next line together, and takes it. True where there is one.
    fn gather_line<F: Files>(&mut self, files: &mut F) -> Result<bool, ReadEnd>
        requires slot { self.old.slot < 3 }
        requires opened { F.is_open files.old self.old.slot }
        requires going { self.old.spent ≡ false }
        requires awake { self.old.ended ≡ false }

        ensures answer { Advances self.old self.new
            (F.left files.old self.old.slot) (F.left files.new self.old.slot) result }
        ensures unread { IsTrue (has_line self.old)
            → SlotsUnchanged
            (F.left files.old) (F.left files.new) (F.faults files.old) (F.faults files.new) }

        ensures call { IsCallOn self.old.slot (is_fault result)
            (F.is_open files.old) (F.is_open files.new) (F.held files.old) (F.held files.new)
            (F.left files.old) (F.left files.new) (F.faults files.old) (F.faults files.new) }
    {
        self.in_block = false;
        let slot = self.slot;
        match gather(&mut self.block, &mut self.line, &mut self.room, slot, files) {
            Gathered::Line => {
                self.line.strip_end();
                if self.line.len() > self.limit {
                    return Err(ReadEnd::LineTooLong);
                }
                Ok(true)
            }
            Gathered::End => {
                self.ended = true;
                if self.line.is_empty() {
                    return Ok(false);
                }
                self.line.strip_end();
                if self.line.len() > self.limit {
                    return Err(ReadEnd::LineTooLong);
                }
                Ok(true)
            }
            Gathered::PastBudget => {
                self.spent = true;
                Err(ReadEnd::TooLong)
            }
            Gathered::Fault => {
                self.spent = true;
                Err(ReadEnd::Fault)
            }
        }
    }

    /// Gives the next line without its end, or None at the end of the slot. It reads as often as
    /// the line needs, and not at all where `has_line` is true. A line over the limit is taken and
    /// reported, and reading goes on; after `TooLong` and `Fault` the reader is spent.
    pub fn next_line<F: Files>(&mut self, files: &mut F) -> Result<Option<&[u8]>, ReadEnd>
        requires slot { self.old.slot < 3 }
        requires opened { F.is_open files.old self.old.slot }
        requires going { self.old.spent ≡ false }

        ensures* answer { sem 𝓛 (Rests the_row self.entry (λ new. Answers self.old new
            (F.left files.old self.old.slot) (F.left files.new self.old.slot) result)) }
        ensures short { GivesAtMost self.old.limit result }
        ensures unread { IsTrue (has_line self.old)
            → SlotsUnchanged
            (F.left files.old) (F.left files.new) (F.faults files.old) (F.faults files.new) }

        ensures call { IsCallOn self.old.slot (is_fault result)
            (F.is_open files.old) (F.is_open files.new) (F.held files.old) (F.held files.new)
            (F.left files.old) (F.left files.new) (F.faults files.old) (F.faults files.new) }
    {
        if self.advance(files)? {
            return Ok(Some(self.line_slice()));
        }
        Ok(None)
    }

    /// The line that was taken last.
    fn line_slice(&self) -> &[u8]
        ensures { result.now ≡ self.now.line }
    {
        if self.in_block {
            return self.block.line();
        }
        self.line.as_slice()
    }
}
