//! One line, taken from the bytes that are held and those that reads give.
ghost use Rattle.std.specs.Prelude.{◌≡◌, ◌<◌, IsTrue};
ghost use Rattle.std.specs.Io.KnownBytes.{prepend_known};
ghost use Rattle.byte_edge.specs.Devices.{IsCallOn, SlotsUnchanged};
ghost use Rattle.byte_edge.specs.Lines.{has_line_feed};
ghost use Rattle.byte_edge.specs.internal.LineParts.{IsNextPart};
ghost use Rattle.byte_edge.specs.internal.Gathered.{Gathers, is_fault};

use super::block::Block;
use super::partial_line::PartialLine;
use super::{Failed, Files};

/// The next part of a line among some bytes.
#[derive(Clone, Copy)]
pub(crate) struct Part {
    len: usize,
    whole: bool,
}

/// How many of the bytes held belong to the line that they begin, and whether its LF is among them.
fn next_part(block: &Block) -> Part
    ensures { IsNextPart result.len result.whole block.now.held }
{
    let bytes = block.as_slice();
    match block.line_feed() {
        Some(at) => Part {
            len: at + 1,
            whole: true,
        },
        None => Part {
            len: bytes.len(),
            whole: false,
        },
    }
}

/// How the taking of one line came to its end.
#[derive(Clone, Copy)]
pub(crate) enum Gathered {
    /// With its LF.
    Line,
    /// With a read that gave 0.
    End,
    /// The budget is not enough for it.
    PastBudget,
    /// A read failed.
    Fault,
}

/// Takes the next line into `line`, from the bytes of `block` and as many reads as that needs. Its
/// bytes are subtracted from `room`.
pub(crate) fn gather<F: Files>(
    block: &mut Block,
    line: &mut PartialLine,
    room: &mut u64,
    slot: usize,
    files: &mut F,
) -> Gathered
    requires slot { slot < 3 }
    requires opened { F.is_open files.old slot }

    ensures gathered { Gathers result line.new room.old room.new
        (prepend_known block.old.held (F.left files.old slot)) block.new.held
        (F.left files.new slot) }
    ensures most { line.new.most ≡ line.old.most }
    ensures unread { IsTrue (has_line_feed block.old.held)
        → SlotsUnchanged
        (F.left files.old) (F.left files.new) (F.faults files.old) (F.faults files.new) }

    ensures call { IsCallOn slot (is_fault result)
        (F.is_open files.old) (F.is_open files.new) (F.held files.old) (F.held files.new)
        (F.left files.old) (F.left files.new) (F.faults files.old) (F.faults files.new) }
{
    line.clear();
    'parts: loop {
        let part = next_part(block);
        line.extend(&block.as_slice()[..part.len]);
        block.consume(part.len);
        if part.len as u64 > *room {
            return Gathered::PastBudget;
        }
        *room -= part.len as u64;
        if part.whole {
            return Gathered::Line;
        }
        match block.fill(slot, files) {
            Ok(true) => {}
            Ok(false) => return Gathered::End,
            Err(Failed) => return Gathered::Fault,
        }
    }
}
