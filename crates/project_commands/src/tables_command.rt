//! The command `tables`.
ghost use Rattle.std.specs.Prelude.{◌≡◌, IfOk};
ghost use Rattle.command_outputs.specs.Commands.{Performs};
ghost use Rattle.rule_types.specs.WellFormed.{WellFormed};
ghost use Rattle.project_commands.specs.Tables.{tables_printed, tables_outcome, tables_roles};

use byte_edge::{Files, NoMemory, Sink};
use command_outputs::{Complaint, Completion, write_text};
use input_check::read_input;
use rule_parser::Project;
use std::alloc::Global;
use table_compiler::compile;

/// `tables IN`: reads the input file, and writes the decision tables of its rules.
///
/// It takes memory for the whole tables and for their text.
pub fn tables<F: Files, O: Sink>(
    alloc: Global,
    input: &str,
    files: &mut F,
    out: &mut O,
) -> Result<Completion, Complaint>
    ensures performs { Performs tables_roles (tables_outcome (F.held files.old) input.now)
        (F.is_open files.new) (F.left files.old) (F.left files.new)
        (F.faults files.old) (F.faults files.new)
        (O.written out.old) (O.written out.new) (O.faults out.old) (O.faults out.new) result }
{
    let project = read_input(alloc, input, files)?;
    let text = tables_text(alloc, &project);
    drop(project);
    let Ok(text) = text else {
        return Err(Complaint::OutOfMemory);
    };
    write_text(out, &text, Completion::Done)
}

/// The text of the tables of a project's rules.
fn tables_text(alloc: Global, project: &Project) -> Result<Vec<u8>, NoMemory>
    requires well_formed { WellFormed project.now.rules }
    ensures value { IfOk result (λ text. text.items ≡ tables_printed project.now) }
{
    let tables = compile(alloc, &project.rules)?;
    tables.text(alloc, &project.rules, &project.objects)
}
