//! All lines of a slot at once.
ghost use Rattle.std.specs.Prelude.{◌≡◌, ◌<◌, ◌≤◌, [], ◌∷◌, ◌++◌, Some, None, length, map, IfOk, IfSome, OnOk, IsErrOf};
ghost use Rattle.std.specs.Io.KnownBytes.{IsAtEnd};
ghost use Rattle.byte_edge.specs.Devices.{IsCallOn};
ghost use Rattle.byte_edge.specs.Lines.{lines, capped};
ghost use Rattle.byte_edge.specs.AllLines.{texts_of, is_failed};

use super::{Files, LineReader, LinesEnd, NoMemory, ReadEnd};
use std::alloc::Global;

/// Reads the slot to its end, and gives its lines without their ends, and None for each that has
/// over `limit` bytes. It takes memory for a copy of each line that it gives, and a block of 8,192
/// bytes and a line of `limit` bytes while it reads.
pub fn read_lines<F: Files>(
    alloc: Global,
    slot: usize,
    limit: usize,
    budget: u64,
    files: &mut F,
) -> Result<Vec<Option<Vec<u8>>>, LinesEnd>
    requires slot { slot < 3 }
    requires limit { limit ≤ 65536 }
    requires opened { F.is_open files.old slot }

    ensures lines { IfOk result (λ all. IfSome (F.left files.old slot)
        (λ bytes. (length bytes ≤ budget)
        × (texts_of all.items ≡ map (capped limit) (lines bytes)))) }
    ensures at_end { OnOk result (IsAtEnd (F.left files.new slot)) }
    ensures too_long { IsErrOf result LinesEnd.TooLong
        → IfSome (F.left files.old slot) (λ bytes. budget < length bytes) }

    ensures call { IsCallOn slot (is_failed result)
        (F.is_open files.old) (F.is_open files.new) (F.held files.old) (F.held files.new)
        (F.left files.old) (F.left files.new) (F.faults files.old) (F.faults files.new) }
{
    let mut reader = LineReader::new(alloc, slot, limit, budget)?;
    let mut all = Vec::new(alloc);
    'lines: loop {
        match reader.next_line(files) {
            Ok(Some(line)) => push_copy(alloc, &mut all, line)?,
            Ok(None) => return Ok(all),
            Err(ReadEnd::LineTooLong) => push_none(&mut all)?,
            Err(ReadEnd::TooLong) => return Err(LinesEnd::TooLong),
            Err(ReadEnd::Fault) => return Err(LinesEnd::Failed),
        }
    }
}

/// Adds a copy of one more line.
fn push_copy(alloc: Global, all: &mut Vec<Option<Vec<u8>>>, line: &[u8]) -> Result<(), NoMemory>
    ensures { OnOk result (texts_of all.new.items ≡ texts_of all.old.items ++ Some line.now ∷ []) }
{
    let copy = Vec::from_slice(alloc, line)?;
    all.push(Some(copy))?;
    Ok(())
}

/// Adds a line that has too many bytes.
fn push_none(all: &mut Vec<Option<Vec<u8>>>) -> Result<(), NoMemory>
    ensures { OnOk result (texts_of all.new.items ≡ texts_of all.old.items ++ None ∷ []) }
{
    all.push(None)?;
    Ok(())
}
