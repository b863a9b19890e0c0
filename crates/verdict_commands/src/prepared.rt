//! A project prepared for the ranges of a file.
ghost use Rattle.std.specs.Prelude.{◌≡◌, IfOk};
ghost use Rattle.command_outputs.specs.Outcomes.{ranges_file};
ghost use Rattle.command_outputs.specs.Steps.{PassesStage};
ghost use Rattle.grid_samples.specs.Cells.{HasClosedRanges};
ghost use Rattle.input_check.specs.InputRefusals.{Judges};
ghost use Rattle.rule_types.specs.Tables.{HoldsTables};
ghost use Rattle.rule_types.specs.WellFormed.{WellFormed};
ghost use Rattle.verdict_meaning.specs.FitRanges.{RangesFit};
ghost use Rattle.verdict_commands.specs.Preparing.{IsReady, prepared, prepared_read, ranges_judged};

use crate::faults::range_refusal;
use byte_edge::{Files, NoMemory};
use command_outputs::{Complaint, RANGES_FILE};
use inp_text::Lines;
use range_lines::{RangeEnd, read_ranges};
use rule_parser::Project;
use std::alloc::Global;
use verdict_meaning::Ranges;
use whole_lines::read_file;

/// A project, whose rules have the start and the step of some ranges, and these ranges.
#[derive(Drop)]
pub struct Prepared {
    pub project: Project,
    pub ranges: Ranges,
}

/// Opens the ranges file, reads it to its end, then judges its lines for a project, and prepares
/// the project for the ranges.
///
/// Refused with the line of the first fault; TooLong, ReadFailed and OutOfMemory as every file
/// that is read whole. It takes memory for the lines of the file while it judges them, and for the
/// ranges.
pub fn read_ranges_file<F: Files>(
    alloc: Global,
    name: &str,
    project: Project,
    files: &mut F,
) -> Result<Prepared, Complaint>
    requires well_formed { WellFormed project.rules }
    requires tables { HoldsTables project.tables project.rules.rules }

    ensures passes { PassesStage ranges_file (ranges_judged project) prepared_read
        (F.held files.old name.now)
        (F.is_open files.old) (F.is_open files.new) (F.held files.old) (F.held files.new)
        (F.left files.old) (F.left files.new) (F.faults files.old) (F.faults files.new) result }
    ensures ready { IfOk result IsReady }
{
    let lines = read_file(alloc, &RANGES_FILE, name, files)?;
    let answer = judge(alloc, &lines, project);
    drop(lines);
    answer
}

/// Judges the lines of a ranges file.
#[tactic(auto, unfolding(crate::specs::Preparing::ranges_judged))]
fn judge(alloc: Global, lines: &Lines, project: Project) -> Result<Prepared, Complaint>
    requires well_formed { WellFormed project.rules }
    requires tables { HoldsTables project.tables project.rules.rules }

    ensures judges { Judges (ranges_judged project lines.now) prepared_read result }
    ensures ready { IfOk result IsReady }
{
    match read_ranges(alloc, lines, &project.rules, &project.objects) {
        Ok(ranges) => Ok(prepare(project, ranges)),
        Err(RangeEnd::Fault { line, cause, key }) => {
            let said = range_refusal(alloc, &project.objects, line, cause, key);
            drop(project);
            match said {
                Ok(said) => Err(Complaint::Refused(said)),
                Err(NoMemory) => Err(Complaint::OutOfMemory),
            }
        }
        Err(RangeEnd::NoMemory) => {
            drop(project);
            Err(Complaint::OutOfMemory)
        }
    }
}

/// Gives the rules of a project the start and the step of ranges.
fn prepare(project: Project, ranges: Ranges) -> Prepared
    requires well_formed { WellFormed project.rules }
    requires tables { HoldsTables project.tables project.rules.rules }
    requires fit { RangesFit project.rules ranges }
    requires closed { HasClosedRanges ranges }

    ensures value { result ≡ prepared project ranges }
    ensures ready { IsReady result }
{
    let mut project = project;
    project.rules.start = Some(ranges.start);
    project.rules.routing_step = ranges.step;
    Prepared { project, ranges }
}
