//! The line that is being put together.
ghost use Rattle.std.specs.Prelude.{◌≡◌, ◌≢◌, ◌+◌, ◌<◌, ◌≤◌, ◌↔◌, ℕ, List, [], ◌++◌, length, take, IsTrue, IfOk, vec_len, vec_capacity};
ghost use Rattle.std.specs.Io.BufRead.{strip_last};
ghost use Rattle.byte_edge.specs.Lines.{line_text};

use super::NoMemory;
use std::alloc::Global;
use std::marker::Model;

/// The first bytes of a line, as many as there is room for. The rest is discarded.
#[derive(Drop)]
pub(crate) struct PartialLine {
    bytes: Vec<u8>,
    most: usize,
}

impl Model for PartialLine {
    ghost use Rattle.std.specs.Prelude.{◌≤◌, ◌<◌, ◌^◌, vec_len, vec_capacity};
    ghost use Rattle.byte_edge.specs.internal.LineParts.{LinePrefix};

    ghost Value = { LinePrefix };

    ghost view = { λ l. record { bytes = l.bytes.items; most = l.most } };

    ghost invariant = { λ l. (vec_len l.bytes ≤ l.most) × (l.most ≤ vec_capacity l.bytes) };
}

impl PartialLine {
    /// An empty line with room for `most` bytes.
    pub(crate) fn new(alloc: Global, most: usize) -> Result<PartialLine, NoMemory>
        ensures bytes { IfOk result (λ line. line.bytes ≡ []) }
        ensures most { IfOk result (λ line. line.most ≡ most) }
    {
        let bytes = Vec::with_capacity(alloc, most)?;
        Ok(PartialLine { bytes, most })
    }

    /// The bytes kept so far.
    pub(crate) fn as_slice(&self) -> &[u8]
        ensures { result.now ≡ self.now.bytes }
    {
        self.bytes.as_slice()
    }

    /// Whether no byte is kept.
    pub(crate) fn is_empty(&self) -> bool
        ensures { IsTrue result ↔ (self.now.bytes ≡ []) }
    {
        self.bytes.is_empty()
    }

    /// Begins another line.
    pub(crate) fn clear(&mut self)
        ensures bytes { self.new.bytes ≡ [] }
        ensures most { self.new.most ≡ self.old.most }
    {
        self.bytes.clear();
    }

    /// Adds a part of the line, as far as there is room.
    pub(crate) fn extend(&mut self, part: &[u8])
        ensures bytes { self.new.bytes ≡ take self.old.most (self.old.bytes ++ part.now) }
        ensures most { self.new.most ≡ self.old.most }
    {
        let count = part.len().min(self.most - self.bytes.len());
        self.bytes.extend_from_slice(&part[..count]).unwrap();
    }

    /// Takes the end of the line off: an LF, and then a CR.
    pub(crate) fn strip_end(&mut self)
        ensures bytes { self.new.bytes ≡ line_text self.old.bytes }
        ensures most { self.new.most ≡ self.old.most }
    {
        strip_last_byte(&mut self.bytes, b'\n');
        strip_last_byte(&mut self.bytes, b'\r');
    }

    /// How many bytes are kept.
    pub(crate) fn len(&self) -> usize
        ensures { result ≡ length self.now.bytes }
    {
        self.bytes.len()
    }
}

/// Takes the last byte off, where it is this one.
fn strip_last_byte(bytes: &mut Vec<u8>, byte: u8)
    ensures bytes { bytes.new.items ≡ strip_last byte bytes.old.items }
    ensures room { vec_capacity bytes.new ≡ vec_capacity bytes.old }
    ensures shorter { vec_len bytes.new ≤ vec_len bytes.old }
{
    if bytes.last().copied() == Some(byte) {
        bytes.pop();
    }
}
