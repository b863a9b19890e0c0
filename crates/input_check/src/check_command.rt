//! The command `check`.
ghost use Rattle.std.specs.Prelude.{◌≡◌, IfOk};
ghost use Rattle.command_outputs.specs.Commands.{Performs};
ghost use Rattle.input_check.specs.Checks.{check_text, check_outcome, check_roles};

use crate::input::read_input;
use byte_edge::{Files, NoMemory, Sink};
use command_outputs::{Complaint, Completion, write_text};
use rule_parser::Project;
use std::alloc::Global;

/// `check IN`: reads the input file, and writes the numbers of its rules, names and objects.
pub fn check<F: Files, O: Sink>(
    alloc: Global,
    input: &str,
    files: &mut F,
    out: &mut O,
) -> Result<Completion, Complaint>
    ensures performs { Performs check_roles (check_outcome (F.held files.old) input.now)
        (F.is_open files.new) (F.left files.old) (F.left files.new)
        (F.faults files.old) (F.faults files.new)
        (O.written out.old) (O.written out.new) (O.faults out.old) (O.faults out.new) result }
{
    let project = read_input(alloc, input, files)?;
    let text = check_text(alloc, &project);
    drop(project);
    let Ok(text) = text else {
        return Err(Complaint::OutOfMemory);
    };
    write_text(out, &text, Completion::Done)
}

/// The text of `check`.
fn check_text(alloc: Global, project: &Project) -> Result<Vec<u8>, NoMemory>
    ensures value { IfOk result (λ text. text.items ≡ check_text project.now) }
{
    let rules = project.rules.rules.as_slice().len().to_string(alloc)?;
    let names = project.rules.names.as_slice().len().to_string(alloc)?;
    let objects = project.objects.count().to_string(alloc)?;
    let mut text = Vec::new(alloc);
    text.extend_from_slice(b"rules ")?;
    text.extend_from_slice(rules.as_bytes())?;
    text.extend_from_slice(b" names ")?;
    text.extend_from_slice(names.as_bytes())?;
    text.extend_from_slice(b" objects ")?;
    text.extend_from_slice(objects.as_bytes())?;
    text.push(b'\n')?;
    Ok(text)
}
