//! The lines of a file, kept as they are read.
ghost use Rattle.std.specs.Prelude.{◌<◌, ◌≤◌, IfSome};
ghost use Rattle.byte_edge.specs.Devices.{IsCallOn};
ghost use Rattle.command_outputs.specs.Steps.{PassesStage, JudgesFile, EndsStage};
ghost use Rattle.command_outputs.specs.Steps.{every_file, is_read_failed};
ghost use Rattle.whole_lines.specs.Reading.{as_read};

use byte_edge::{Files, LineReader, ReadEnd};
use command_outputs::{Complaint, FileKind};
use inp_text::Lines;
use std::alloc::Global;

/// Opens a file and reads it to its end: its lines in their order, and none in the place of each
/// that is longer than its limit.
///
/// Refused is never answered. The file that cannot be opened or read, and the file with more bytes
/// than its limit, are named by their role; OutOfMemory only where memory is wanting. It takes
/// memory for the lines, and a block of 8,192 bytes and one line while it reads.
pub fn read_file<F: Files>(
    alloc: Global,
    kind: &FileKind,
    name: &str,
    files: &mut F,
) -> Result<Lines, Complaint>
    requires slot { kind.now.slot < 3 }
    requires limit { kind.now.limit ≤ 65536 }

    ensures passes { PassesStage kind.now every_file as_read (F.held files.old name.now)
        (F.is_open files.old) (F.is_open files.new) (F.held files.old) (F.held files.new)
        (F.left files.old) (F.left files.new) (F.faults files.old) (F.faults files.new) result }
{
    if files.open_file(kind.slot, name).is_err() {
        return Err(Complaint::ReadFailed(kind.role));
    }
    read_opened(alloc, kind, files)
}

/// Reads a file that was opened.
fn read_opened<F: Files>(alloc: Global, kind: &FileKind, files: &mut F) -> Result<Lines, Complaint>
    requires slot { kind.now.slot < 3 }
    requires limit { kind.now.limit ≤ 65536 }
    requires opened { F.is_open files.old kind.now.slot }

    ensures judges { IfSome (F.left files.old kind.now.slot)
        (λ bytes. JudgesFile kind.now every_file as_read bytes result) }
    ensures ends { EndsStage kind.now (F.left files.new) result }
    ensures call { IsCallOn kind.now.slot (is_read_failed result)
        (F.is_open files.old) (F.is_open files.new) (F.held files.old) (F.held files.new)
        (F.left files.old) (F.left files.new) (F.faults files.old) (F.faults files.new) }
{
    let made = LineReader::new(alloc, kind.slot, kind.limit, kind.budget);
    let Ok(mut reader) = made else {
        return Err(Complaint::OutOfMemory);
    };
    let mut read = Lines::new(alloc);
    'lines: loop {
        match reader.next_line(files) {
            Ok(Some(line)) => {
                if read.push(Some(line)).is_err() {
                    return Err(Complaint::OutOfMemory);
                }
            }
            Ok(None) => return Ok(read),
            Err(ReadEnd::LineTooLong) => {
                if read.push(None).is_err() {
                    return Err(Complaint::OutOfMemory);
                }
            }
            Err(ReadEnd::TooLong) => return Err(Complaint::TooLong(kind.role)),
            Err(ReadEnd::Fault) => return Err(Complaint::ReadFailed(kind.role)),
        }
    }
}
