//! A file that is read to its end.
ghost use Rattle.std.specs.Prelude.{◌<◌, ◌≤◌};
ghost use Rattle.command_outputs.specs.Steps.{PassesStage, every_file, texts_read};

use crate::complaint::Complaint;
use crate::file_kind::FileKind;
use byte_edge::{Files, LinesEnd, read_lines};
use std::alloc::Global;

/// Opens a file and reads it to its end: its lines without their ends, and None for each that is
/// longer than its limit. It takes memory for all of them.
pub fn read_whole<F: Files>(
    alloc: Global,
    kind: &FileKind,
    name: &str,
    files: &mut F,
) -> Result<Vec<Option<Vec<u8>>>, Complaint>
    requires slot { kind.now.slot < 3 }
    requires limit { kind.now.limit ≤ 65536 }

    ensures passes { PassesStage kind.now every_file texts_read (F.held files.old name.now)
        (F.is_open files.old) (F.is_open files.new) (F.held files.old) (F.held files.new)
        (F.left files.old) (F.left files.new) (F.faults files.old) (F.faults files.new) result }
{
    if files.open_file(kind.slot, name).is_err() {
        return Err(Complaint::ReadFailed(kind.role));
    }
    match read_lines(alloc, kind.slot, kind.limit, kind.budget, files) {
        Ok(lines) => Ok(lines),
        Err(LinesEnd::Failed) => Err(Complaint::ReadFailed(kind.role)),
        Err(LinesEnd::TooLong) => Err(Complaint::TooLong(kind.role)),
        Err(LinesEnd::NoMemory) => Err(Complaint::OutOfMemory),
    }
}
