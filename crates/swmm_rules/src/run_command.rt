//! The tool over files and sinks.
ghost use Rattle.std.specs.Prelude.{◌≡◌, ◌⊎◌, List, IfSome, IsNone, map, string_bytes};
ghost use Rattle.byte_edge.specs.Devices.{CountIncreased};
ghost use Rattle.command_outputs.specs.Runs.{UnchangedFrom, WritesWhenOpen, Says, Counts};
ghost use Rattle.verdict_meaning.specs.declared.verdict.Verdict.{Verdict};
ghost use Rattle.swmm_rules.specs.Commands.{command_of, usage_text};
ghost use Rattle.swmm_rules.specs.Commands.{roles_of_words, outcome_of_words};
ghost use Rattle.swmm_rules.specs.RightVerdicts.{LeavesCommand, PerformsCommand};
ghost use Rattle.swmm_rules.specs.Words.{line_of, IsInBounds};

use crate::command::{Command, command_of, usage_text};
use byte_edge::{Files, Sink};
use command_outputs::{Complaint, Completion, Status, conclude, tell};
use generated_replay::generate;
use input_check::check;
use project_commands::{replay, tables};
use std::alloc::Global;
use verdict_commands::{prove, verify};

/// Runs the tool: the command that the words are, over the files of these names; words that are no
/// command are answered with the usage.
///
/// What is said below holds for all bytes that the files object holds, in whatever pieces reads
/// give them and writes take them.
pub fn run<F: Files, O: Sink, E: Sink>(
    alloc: Global,
    words: &[String],
    files: &mut F,
    out: &mut O,
    err: &mut E,
) -> Status
    // Words that are no command end with Usage, unless `err` fails, and nothing else does.
    ensures usage { IsNone (command_of (map string_bytes words.now)) → (result ≡ Status.Usage)
        ⊎ ((result ≡ Status.Device) × CountIncreased (E.faults err.old) (E.faults err.new)) }
    ensures command { result ≡ Status.Usage → IsNone (command_of (map string_bytes words.now)) }

    // The run ends as its outcome says, which is known where the bytes under the names are; and the
    // verdicts that `prove` writes are right.
    ensures leaves { LeavesCommand (F.held files.old) (command_of (map string_bytes words.now))
        (F.left files.old 1) (F.left files.new)
        (O.written out.old) (O.written out.new) (E.written err.old) (E.written err.new)
        (O.faults out.old) (O.faults out.new) (E.faults err.old) (E.faults err.new) result }

    // The files that the outcome does not open are as they were, whatever the verdicts are.
    ensures unchanged { (verdicts : List Verdict) → IfSome
        (outcome_of_words (F.held files.old) verdicts (command_of (map string_bytes words.now)))
        (λ o. UnchangedFrom o.opened
        (F.left files.old) (F.left files.new) (F.faults files.old) (F.faults files.new)) }

    // Nothing is written before all files of the command are open, whatever they hold.
    ensures opened { WritesWhenOpen (roles_of_words (command_of (map string_bytes words.now)))
        (F.is_open files.new) (O.written out.old) (O.written out.new) }

    // What is said belongs to the status, and Device comes only where a count of faults increased.
    ensures says { Says usage_text (roles_of_words (command_of (map string_bytes words.now)))
        (F.faults files.old) (F.faults files.new) (O.faults out.old) (O.faults out.new)
        (E.faults err.old) (E.faults err.new) (E.written err.old) (E.written err.new) result }
    ensures counts { Counts (roles_of_words (command_of (map string_bytes words.now)))
        (F.faults files.old) (F.faults files.new) (O.faults out.old) (O.faults out.new)
        (E.faults err.old) (E.faults err.new) result }
{
    match command_of(words) {
        None => tell(err, usage_text(), Status::Usage),
        Some(command) => {
            let answer = perform(alloc, command, files, out);
            conclude::<F, O, E>(answer, err)
        }
    }
}

/// Performs a command.
fn perform<F: Files, O: Sink>(
    alloc: Global,
    command: Command<'_>,
    files: &mut F,
    out: &mut O,
) -> Result<Completion, Complaint>
    requires bounds { IsInBounds command }
    ensures performs { PerformsCommand (F.held files.old) (line_of command.entry)
        (F.is_open files.new) (F.left files.old) (F.left files.new)
        (F.faults files.old) (F.faults files.new)
        (O.written out.old) (O.written out.new) (O.faults out.old) (O.faults out.new) result }
{
    match command {
        Command::Check { input } => check(alloc, input, files, out),
        Command::Tables { input } => tables(alloc, input, files, out),
        Command::Replay { input, trace } => replay(alloc, input, trace, files, out),
        Command::Prove { input, ranges } => prove(alloc, input, ranges, files, out),
        Command::Verify {
            input,
            ranges,
            report,
        } => verify(alloc, input, ranges, report, files, out),
        Command::Generate { pumps } => generate(alloc, pumps, files, out),
    }
}
