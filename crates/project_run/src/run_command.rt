//! The commands over files and sinks.
ghost use Rattle.std.specs.Prelude.{◌≡◌, ◌≢◌, ℕ, List, None, IfSome, MatchOption, map};
ghost use Rattle.std.specs.Prelude.{string_bytes};
ghost use Rattle.command_outputs.specs.Commands.{Performs};
ghost use Rattle.command_outputs.specs.Runs.{UnchangedFrom, WritesWhenOpen, Leaves, Says, Counts};
ghost use Rattle.project_run.specs.ProjectLines.{project_line_of, roles_of, outcome};
ghost use Rattle.project_run.specs.ProjectLines.{roles_of_words, outcome_of_words};
ghost use Rattle.project_run.specs.Words.{line_of};

use crate::project_command::{ProjectCommand, project_command_of};
use byte_edge::{Files, Sink};
use command_outputs::{Complaint, Completion, Status, conclude};
use input_check::check;
use project_commands::{replay, tables};
use std::alloc::Global;

/// Runs the command that the words are, `check IN`, `tables IN` or `replay IN TRACE`, over the
/// files of these names. None where the words are none of these.
///
/// What is said below holds for all bytes that the files object holds, in whatever pieces reads
/// give them and writes take them.
pub fn run_project<F: Files, O: Sink, E: Sink>(
    alloc: Global,
    words: &[String],
    files: &mut F,
    out: &mut O,
    err: &mut E,
) -> Option<Status>
    // None comes exactly where the words are none of these commands, and a status of another is
    // never Usage.
    ensures known { MatchOption result (project_line_of (map string_bytes words.now) ≡ None)
        (λ status. project_line_of (map string_bytes words.now) ≢ None) }
    ensures command { IfSome result (λ status. status ≢ Status.Usage) }

    // Where the words are none of these, nothing was read, written or opened.
    ensures untouched { result ≡ None
        → (files.new ≡ files.old) × ((out.new ≡ out.old) × (err.new ≡ err.old)) }

    // The run ends as its outcome says, which is known where the bytes under the names are.
    ensures leaves { IfSome result (λ status. IfSome
        (outcome_of_words (F.held files.old) (project_line_of (map string_bytes words.now)))
        (λ o. Leaves o (F.left files.old 1) (F.left files.new)
        (O.written out.old) (O.written out.new) (E.written err.old) (E.written err.new)
        (O.faults out.old) (O.faults out.new) (E.faults err.old) (E.faults err.new) status)) }

    // The files that the outcome does not open are as they were.
    ensures unchanged { IfSome
        (outcome_of_words (F.held files.old) (project_line_of (map string_bytes words.now)))
        (λ o. UnchangedFrom o.opened
        (F.left files.old) (F.left files.new) (F.faults files.old) (F.faults files.new)) }

    // Nothing is written before all files of the command are open, whatever they hold.
    ensures opened { WritesWhenOpen (roles_of_words (project_line_of (map string_bytes words.now)))
        (F.is_open files.new) (O.written out.old) (O.written out.new) }

    // What is said belongs to the status, and Device comes only where a count of faults increased.
    ensures says { (usage : List ℕ) → IfSome result
        (Says usage (roles_of_words (project_line_of (map string_bytes words.now)))
        (F.faults files.old) (F.faults files.new) (O.faults out.old) (O.faults out.new)
        (E.faults err.old) (E.faults err.new) (E.written err.old) (E.written err.new)) }
    ensures counts { IfSome result
        (Counts (roles_of_words (project_line_of (map string_bytes words.now)))
        (F.faults files.old) (F.faults files.new) (O.faults out.old) (O.faults out.new)
        (E.faults err.old) (E.faults err.new)) }
{
    match project_command_of(words) {
        None => None,
        Some(command) => {
            let answer = perform(alloc, command, files, out);
            Some(conclude::<F, O, E>(answer, err))
        }
    }
}

/// Performs a command.
fn perform<F: Files, O: Sink>(
    alloc: Global,
    command: ProjectCommand<'_>,
    files: &mut F,
    out: &mut O,
) -> Result<Completion, Complaint>
    ensures performs { Performs (roles_of (line_of command.entry))
        (outcome (F.held files.old) (line_of command.entry))
        (F.is_open files.new) (F.left files.old) (F.left files.new)
        (F.faults files.old) (F.faults files.new)
        (O.written out.old) (O.written out.new) (O.faults out.old) (O.faults out.new) result }
{
    match command {
        ProjectCommand::Check { input } => check(alloc, input, files, out),
        ProjectCommand::Tables { input } => tables(alloc, input, files, out),
        ProjectCommand::Replay { input, trace } => replay(alloc, input, trace, files, out),
    }
}
