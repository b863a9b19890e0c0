//! The lines of the input file, kept by section as they are read.
ghost use Rattle.std.specs.Prelude.{OnOk};
ghost use Rattle.byte_edge.specs.Devices.{IsCallOn};
ghost use Rattle.command_outputs.specs.Outcomes.{input_file};
ghost use Rattle.command_outputs.specs.Steps.{EndsStage, is_read_failed};
ghost use Rattle.input_reader.specs.Reading.{ReadsSections};

use byte_edge::{Files, LineReader, ReadEnd};
use command_outputs::{Complaint, INPUT_FILE};
use inp_text::Sections;
use std::alloc::Global;

/// Opens the input file and reads it to its end, and keeps its lines by section.
///
/// It takes memory for the lines that are kept, and a block of 8,192 bytes and one line while it
/// reads (the format is that of the SWMM 5.2 manual, appendix D).
pub fn read_sections<F: Files>(
    alloc: Global,
    name: &str,
    files: &mut F,
) -> Result<Sections, Complaint>
    ensures reads { ReadsSections (F.held files.old name.now) result }
    ensures ends { EndsStage input_file (F.left files.new) result }
    ensures opened { OnOk result (F.is_open files.new 0) }
    ensures call { IsCallOn 0 (is_read_failed result)
        (F.is_open files.old) (F.is_open files.new) (F.held files.old) (F.held files.new)
        (F.left files.old) (F.left files.new) (F.faults files.old) (F.faults files.new) }
{
    if files.open_file(INPUT_FILE.slot, name).is_err() {
        return Err(Complaint::ReadFailed(INPUT_FILE.role));
    }
    read_opened(alloc, files)
}

/// Reads the input file that was opened.
fn read_opened<F: Files>(alloc: Global, files: &mut F) -> Result<Sections, Complaint>
    requires opened { F.is_open files.old 0 }

    ensures reads { ReadsSections (F.left files.old 0) result }
    ensures ends { EndsStage input_file (F.left files.new) result }
    ensures call { IsCallOn 0 (is_read_failed result)
        (F.is_open files.old) (F.is_open files.new) (F.held files.old) (F.held files.new)
        (F.left files.old) (F.left files.new) (F.faults files.old) (F.faults files.new) }
{
    let made = LineReader::new(alloc, INPUT_FILE.slot, INPUT_FILE.limit, INPUT_FILE.budget);
    let Ok(mut reader) = made else {
        return Err(Complaint::OutOfMemory);
    };
    let mut sections = Sections::new(alloc);
    'lines: loop {
        match reader.next_line(files) {
            Ok(Some(line)) => {
                if sections.push(Some(line)).is_err() {
                    return Err(Complaint::OutOfMemory);
                }
            }
            Ok(None) => return Ok(sections),
            Err(ReadEnd::LineTooLong) => {
                if sections.push(None).is_err() {
                    return Err(Complaint::OutOfMemory);
                }
            }
            Err(ReadEnd::TooLong) => return Err(Complaint::TooLong(INPUT_FILE.role)),
            Err(ReadEnd::Fault) => return Err(Complaint::ReadFailed(INPUT_FILE.role)),
        }
    }
}
