//! A report, read to its end and checked.
ghost use Rattle.command_outputs.specs.Outcomes.{report_file};
ghost use Rattle.command_outputs.specs.Steps.{PassesStage};
ghost use Rattle.input_check.specs.InputRefusals.{Judges};
ghost use Rattle.verdict_commands.specs.Preparing.{IsReady};
ghost use Rattle.verdict_commands.specs.Verifies.{counts_read, counts_judged};

use crate::faults::report_refusal;
use crate::prepared::Prepared;
use byte_edge::{Files, NoMemory};
use command_outputs::{Complaint, REPORT_FILE};
use inp_text::Lines;
use report_checker::{Counts, ReportStop, check_report};
use std::alloc::Global;
use whole_lines::read_file;

/// Opens the report, reads it to its end, and then checks its entries one by one against a prepared
/// project: how many hold, are refuted and are undecided, where every one is accepted.
///
/// Refused with the line of the first fault; TooLong, ReadFailed and OutOfMemory as every file that
/// is read whole. It takes memory for the lines of the report and for one entry at a time.
pub fn read_report_file<F: Files>(
    alloc: Global,
    name: &str,
    prepared: &Prepared,
    files: &mut F,
) -> Result<Counts, Complaint>
    requires ready { IsReady prepared.now }

    ensures passes { PassesStage report_file (counts_judged prepared.now) counts_read
        (F.held files.old name.now)
        (F.is_open files.old) (F.is_open files.new) (F.held files.old) (F.held files.new)
        (F.left files.old) (F.left files.new) (F.faults files.old) (F.faults files.new) result }
{
    let lines = read_file(alloc, &REPORT_FILE, name, files)?;
    let answer = judge(alloc, &lines, prepared);
    drop(lines);
    answer
}

/// Checks the entries of a report.
#[tactic(auto, unfolding(crate::specs::Verifies::counts_judged))]
fn judge(alloc: Global, lines: &Lines, prepared: &Prepared) -> Result<Counts, Complaint>
    requires ready { IsReady prepared.now }
    ensures judges { Judges (counts_judged prepared.now lines.now) counts_read result }
{
    let project = &prepared.project;
    match check_report(
        alloc,
        lines,
        &project.rules,
        &project.tables,
        &project.objects,
        &prepared.ranges,
    ) {
        Ok(counts) => Ok(counts),
        Err(ReportStop::Fault(fault)) => match report_refusal(alloc, &fault) {
            Ok(said) => Err(Complaint::Refused(said)),
            Err(NoMemory) => Err(Complaint::OutOfMemory),
        },
        Err(ReportStop::NoMemory) => Err(Complaint::OutOfMemory),
    }
}
