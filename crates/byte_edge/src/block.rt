//! The bytes that were read from a slot and not yet given.
ghost use Rattle.std.specs.Prelude.{◌≡◌, ◌<◌, ◌≤◌, ◌==◌, [], length, take, drop, position};
ghost use Rattle.std.specs.Prelude.{false, IsTrue, IfOk};
ghost use Rattle.std.specs.Prelude.{OnOk, OnErr, is_err};
ghost use Rattle.std.specs.Io.BufRead.{strip_last};
ghost use Rattle.std.specs.Io.KnownBytes.{Consumes, Keeps, IsAtEnd};
ghost use Rattle.byte_edge.specs.Devices.{IsCallOn};
ghost use Rattle.byte_edge.specs.Lines.{line_text};
ghost use Rattle.byte_edge.specs.TextBytes.{line_feed};

use super::{Failed, Files, NoMemory};
use memchr::memchr;
use std::alloc::Global;
use std::marker::Model;

/// How many bytes a read asks for.
const BLOCK: usize = 65_536;

/// Bytes of a slot, taken by reads of up to 65,536 bytes. Contracts see the bytes that it holds, and
/// the line that was taken out of it last, which stays where it was read until the next read. The
/// first LF of the bytes held is looked for once, where bytes were read or discarded.
#[derive(Drop)]
pub(crate) struct Block {
    bytes: Vec<u8>,
    start: usize,
    end: usize,
    /// The place of the first LF among the bytes that it holds.
    feed: Option<usize>,
    line_start: usize,
    line_end: usize,
}

impl Model for Block {
    ghost use Rattle.std.specs.Prelude.{◌≡◌, ◌≤◌, ◌==◌, slice_range, vec_len, position};
    ghost use Rattle.byte_edge.specs.TextBytes.{line_feed};
    ghost use Rattle.byte_edge.specs.internal.BlockState.{BlockState};

    ghost Value = { BlockState };

    ghost view = { λ b. record {
      held = slice_range b.bytes.items b.start b.end;
      line = slice_range b.bytes.items b.line_start b.line_end;
    } };

    ghost invariant = { λ b. (b.start ≤ b.end) × (b.end ≤ 65536) × (vec_len b.bytes ≡ 65536)
        × (b.line_start ≤ b.line_end) × (b.line_end ≤ 65536)
        × (b.feed ≡ position (λ byte. byte == line_feed)
        (slice_range b.bytes.items b.start b.end)) };
}

impl Block {
    /// A block that holds nothing.
    pub(crate) fn new(alloc: Global) -> Result<Block, NoMemory>
        ensures { IfOk result (λ block. block.held ≡ []) }
    {
        let mut bytes = Vec::with_capacity(alloc, BLOCK)?;
        bytes.resize(BLOCK, 0)?;
        Ok(Block {
            bytes,
            start: 0,
            end: 0,
            feed: None,
            line_start: 0,
            line_end: 0,
        })
    }

    /// The bytes that it holds.
    pub(crate) fn as_slice(&self) -> &[u8]
        ensures { result.now ≡ self.now.held }
    {
        let (start, end) = (self.start, self.end);
        let all = self.bytes.as_slice();
        &all[start..end]
    }

    /// The place of the first LF among the bytes that it holds. It costs nothing.
    pub(crate) fn line_feed(&self) -> Option<usize>
        ensures { result ≡ position (λ byte. byte == line_feed) self.now.held }
    {
        self.feed
    }

    /// Discards the first `count` bytes.
    pub(crate) fn consume(&mut self, count: usize)
        requires { count ≤ length self.old.held }
        ensures held { self.new.held ≡ drop count self.old.held }
        ensures line { self.new.line ≡ self.old.line }
    {
        self.start += count;
        self.feed = newline_at(&self.bytes.as_slice()[self.start..self.end]);
    }

    /// Takes its first `count` bytes, a line, which `line` then gives. No byte is copied.
    pub(crate) fn take_line(&mut self, count: usize)
        requires { count ≤ length self.old.held }
        ensures held { self.new.held ≡ drop count self.old.held }
        ensures line { self.new.line ≡ line_text (take count self.old.held) }
    {
        self.mark_line(count);
        self.consume(count);
    }

    /// Makes its first `count` bytes, without the end of a line, the line that it gives.
    fn mark_line(&mut self, count: usize)
        requires { count ≤ length self.old.held }
        ensures held { self.new.held ≡ self.old.held }
        ensures line { self.new.line ≡ line_text (take count self.old.held) }
    {
        let len = text_of(&self.as_slice()[..count]).len();
        self.line_start = self.start;
        self.line_end = self.start + len;
    }

    /// The line that was taken last, without its end.
    pub(crate) fn line(&self) -> &[u8]
        ensures { result.now ≡ self.now.line }
    {
        let (start, end) = (self.line_start, self.line_end);
        let all = self.bytes.as_slice();
        &all[start..end]
    }

    /// Reads once into a block that holds nothing. False at the end of the slot.
    pub(crate) fn fill<F: Files>(&mut self, slot: usize, files: &mut F) -> Result<bool, Failed>
        requires slot { slot < 3 }
        requires opened { F.is_open files.old slot }

        ensures bytes { OnOk result
            (Consumes (F.left files.old slot) (F.left files.new slot) self.new.held) }
        ensures more { IfOk result (λ more. IsTrue more → 0 < length self.new.held) }
        ensures end { IfOk result
            (λ more. more ≡ false → (self.new.held ≡ []) × IsAtEnd (F.left files.new slot)) }
        ensures nothing { OnErr result (self.new.held ≡ []) }
        ensures unread { OnErr result (Keeps (F.left files.old slot) (F.left files.new slot)) }

        ensures call { IsCallOn slot (is_err result)
            (F.is_open files.old) (F.is_open files.new) (F.held files.old) (F.held files.new)
            (F.left files.old) (F.left files.new) (F.faults files.old) (F.faults files.new) }
    {
        self.start = 0;
        self.end = 0;
        self.feed = None;
        let count = files.read(slot, self.bytes.as_mut_slice())?;
        self.end = count;
        self.feed = newline_at(&self.bytes.as_slice()[..count]);
        Ok(count > 0)
    }
}

/// The place of the first LF.
fn newline_at(bytes: &[u8]) -> Option<usize>
    ensures { result ≡ position (λ byte. byte == line_feed) bytes.now }
{
    memchr(b'\n', bytes)
}

/// A line without its end: an LF, and then a CR.
fn text_of(line: &[u8]) -> &[u8]
    ensures { result.now ≡ line_text line.now }
{
    without_last(without_last(line, b'\n'), b'\r')
}

/// Bytes without the last one, where it is this one.
fn without_last(bytes: &[u8], byte: u8) -> &[u8]
    ensures { result.now ≡ strip_last byte bytes.now }
{
    if bytes.last().copied() == Some(byte) {
        return &bytes[..bytes.len() - 1];
    }
    bytes
}
