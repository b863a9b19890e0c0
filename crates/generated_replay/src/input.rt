//! The project of an input file that is held in memory.
ghost use Rattle.std.specs.Prelude.{◌≡◌, ◌<◌, ◌^◌, IfOk, List, length, reverse};
ghost use Rattle.rule_types.specs.Tables.{HoldsTables};
ghost use Rattle.rule_types.specs.WellFormed.{WellFormed};
ghost use Rattle.inp_text.specs.Sections.{Line};
ghost use Rattle.inp_text.specs.internal.Represents.{Represents};
ghost use Rattle.input_check.specs.InputRefusals.{project_judged, project_read};
ghost use Rattle.generated_replay.specs.GeneratedText.{input_judged};
ghost use Rattle.generated_replay.specs.internal.InputLines.{AreSectionsOf};
ghost use Rattle.trace_tally.specs.Giving.{Gives};

use byte_edge::NoMemory;
use command_outputs::{Complaint, INPUT_FILE, Role};
use inp_text::Sections;
use input_check::refusal_line;
use rule_parser::{Project, read_project};
use rule_types::ReadFault;
use std::alloc::Global;
use trace_tally::first_line;

/// The project of an input file with these bytes, or why it is refused.
pub(crate) fn project_of(alloc: Global, input: &[u8]) -> Result<Project, Complaint>
    ensures gives { Gives (input_judged input.now) project_read result }
    ensures well_formed { IfOk result (λ project. WellFormed project.rules) }
    ensures tables { IfOk result (λ project. HoldsTables project.tables project.rules.rules) }
{
    if input.len() as u64 > INPUT_FILE.budget {
        return Err(Complaint::TooLong(Role::Input));
    }
    let Ok(sections) = sections_of(alloc, input) else {
        return Err(Complaint::OutOfMemory);
    };
    let judged = judge(alloc, &sections);
    drop(sections);
    judged
}

/// The lines of an input file, kept by section.
fn sections_of(alloc: Global, input: &[u8]) -> Result<Sections, NoMemory>
    requires few { length input.now < 2 ^ 32 }
    ensures { IfOk result (AreSectionsOf input.now) }
{
    let mut sections = Sections::new(alloc);
    let mut rest = input;
    'lines: loop {
        let Some(first) = first_line(rest, INPUT_FILE.limit) else {
            return Ok(sections);
        };
        sections.push(first.line)?;
        rest = first.rest;
    }
}

/// Judges the lines of an input file.
#[tactic(auto, unfolding(input_check::specs::InputRefusals::project_judged))]
fn judge(alloc: Global, sections: &Sections) -> Result<Project, Complaint>
    ensures gives { (earlier : List Line) → Represents sections.now earlier
        → Gives (project_judged (reverse earlier)) project_read result }
    ensures well_formed { IfOk result (λ project. WellFormed project.rules) }
    ensures tables { (earlier : List Line) → Represents sections.now earlier
        → IfOk result (λ project. HoldsTables project.tables project.rules.rules) }
{
    match read_project(alloc, sections) {
        Ok(project) => Ok(project),
        Err(ReadFault::Refused(refusal)) => match refusal_line(alloc, &refusal) {
            Ok(line) => Err(Complaint::Refused(line)),
            Err(NoMemory) => Err(Complaint::OutOfMemory),
        },
        Err(ReadFault::NoMemory) => Err(Complaint::OutOfMemory),
    }
}
