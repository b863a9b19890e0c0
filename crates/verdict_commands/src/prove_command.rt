//! The command `prove`.
ghost use Rattle.verdict_commands.specs.Proves.{Proves};

use crate::decided_report::decide_all;
use crate::prepared::read_ranges_file;
use byte_edge::{Files, Sink};
use command_outputs::{Complaint, Completion, write_text};
use input_check::read_input;
use std::alloc::Global;

/// `prove IN RANGES`: reads the input file, and then the ranges, where that is accepted; decides
/// each question of the ranges in their order, and writes the report of them all: for each question
/// its verdict with the certificate, the state or the cell. Nothing is written before all is
/// decided. It takes memory for the report, and for one question at a time.
///
/// It ends with Refuted where some question is refuted, else with Undecided where some question is
/// undecided, else with Done.
pub fn prove<F: Files, O: Sink>(
    alloc: Global,
    input: &str,
    ranges: &str,
    files: &mut F,
    out: &mut O,
) -> Result<Completion, Complaint>
    ensures proves { Proves (F.held files.old) input.now ranges.now
        (F.is_open files.new) (F.left files.old) (F.left files.new)
        (F.faults files.old) (F.faults files.new)
        (O.written out.old) (O.written out.new) (O.faults out.old) (O.faults out.new) result }
{
    let project = read_input(alloc, input, files)?;
    let prepared = read_ranges_file(alloc, ranges, project, files)?;
    let report = decide_all(alloc, &prepared);
    drop(prepared);
    let Ok(report) = report else {
        return Err(Complaint::OutOfMemory);
    };
    write_text(out, &report.text, report.completion)
}
