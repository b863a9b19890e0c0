//! The input file, read to its end and judged.
ghost use Rattle.std.specs.Prelude.{List, IfOk, reverse};
ghost use Rattle.command_outputs.specs.Outcomes.{input_file};
ghost use Rattle.command_outputs.specs.Steps.{PassesStage};
ghost use Rattle.inp_text.specs.Sections.{Line};
ghost use Rattle.inp_text.specs.internal.Represents.{Represents};
ghost use Rattle.object_index.specs.Holding.{HoldsObjects};
ghost use Rattle.rule_types.specs.Tables.{HoldsTables};
ghost use Rattle.rule_types.specs.WellFormed.{WellFormed};
ghost use Rattle.input_check.specs.InputRefusals.{project_judged, project_read, Judges};

use crate::refusal::refusal_line;
use byte_edge::{Files, NoMemory};
use command_outputs::Complaint;
use inp_text::Sections;
use input_reader::read_sections;
use rule_parser::{Project, read_project};
use rule_types::ReadFault;
use std::alloc::Global;

/// Opens the input file, reads it to its end, and then judges it.
///
/// It takes memory for the lines that are kept of the file, and for the project.
pub fn read_input<F: Files>(alloc: Global, name: &str, files: &mut F) -> Result<Project, Complaint>
    ensures passes { PassesStage input_file project_judged project_read
        (F.held files.old name.now)
        (F.is_open files.old) (F.is_open files.new) (F.held files.old) (F.held files.new)
        (F.left files.old) (F.left files.new) (F.faults files.old) (F.faults files.new) result }
    ensures well_formed { IfOk result (λ project. WellFormed project.rules) }
    ensures objects { IfOk result (λ project. HoldsObjects project.objects project.rules) }
    ensures tables { IfOk result (λ project. HoldsTables project.tables project.rules.rules) }
{
    let sections = read_sections(alloc, name, files)?;
    judge(alloc, &sections)
}

/// Judges the lines of an input file.
#[tactic(auto, unfolding(crate::specs::InputRefusals::project_judged))]
fn judge(alloc: Global, sections: &Sections) -> Result<Project, Complaint>
    ensures judges { (earlier : List Line) → Represents sections.now earlier
        → Judges (project_judged (reverse earlier)) project_read result }
    ensures well_formed { IfOk result (λ project. WellFormed project.rules) }
    ensures objects { IfOk result (λ project. HoldsObjects project.objects project.rules) }
    ensures tables { (earlier : List Line) → Represents sections.now earlier
        → IfOk result (λ project. HoldsTables project.tables project.rules.rules) }
{
    match read_project(alloc, sections) {
        Ok(project) => Ok(project),
        Err(ReadFault::Refused(refusal)) => match refusal_line(alloc, &refusal) {
            Ok(line) => Err(Complaint::Refused(line)),
            Err(NoMemory) => Err(Complaint::OutOfMemory),
        },
        Err(ReadFault::NoMemory) => Err(Complaint::OutOfMemory),
    }
}
