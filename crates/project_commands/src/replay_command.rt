//! The command `replay`.
ghost use Rattle.std.specs.Prelude.{◌≡◌, List, IfOk};
ghost use Rattle.byte_edge.specs.Lines.{LineEvent};
ghost use Rattle.command_outputs.specs.Commands.{Performs};
ghost use Rattle.rule_meaning.specs.Reading.{settling};
ghost use Rattle.rule_types.specs.Tables.{HoldsTables};
ghost use Rattle.rule_types.specs.WellFormed.{WellFormed};
ghost use Rattle.project_commands.specs.Replays.{replay_outcome, replay_roles, replay_printed};

use byte_edge::{Files, NoMemory, Sink};
use command_outputs::{Complaint, Completion};
use input_check::read_input;
use replay_printer::ReplayPrinter;
use rule_parser::Project;
use std::alloc::Global;
use streamed_lines::{LinePrinter, stream_trace};
use table_compiler::compile;
use table_run::TableReads;
use trace_replay::Reads;

/// `replay IN TRACE`: reads the input file, and then replays its rules over the trace, row by row,
/// by their decision tables.
pub fn replay<F: Files, O: Sink>(
    alloc: Global,
    input: &str,
    trace: &str,
    files: &mut F,
    out: &mut O,
) -> Result<Completion, Complaint>
    ensures performs { Performs replay_roles
        (replay_outcome (F.held files.old) input.now trace.now)
        (F.is_open files.new) (F.left files.old) (F.left files.new)
        (F.faults files.old) (F.faults files.new)
        (O.written out.old) (O.written out.new) (O.faults out.old) (O.faults out.new) result }
{
    let project = read_input(alloc, input, files)?;
    let Ok(mut printer) = printer_of(alloc, &project) else {
        drop(project);
        return Err(Complaint::OutOfMemory);
    };
    let answer = stream_trace(alloc, &mut printer, trace, files, out);
    drop(printer);
    drop(project);
    answer
}

/// The printer of a replay by the decision tables of a project's rules, before the first line of
/// the trace. NoMemory where memory is wanting.
pub fn printer_of<'a>(
    alloc: Global,
    project: &'a Project,
) -> Result<ReplayPrinter<'a, TableReads<'a>>, NoMemory>
    requires well_formed { WellFormed project.now.rules }
    requires tables { HoldsTables project.now.tables project.now.rules.rules }

    ensures ready { IfOk result (λ printer.
        ⟦<ReplayPrinter<'a, TableReads<'a>> as LinePrinter>⟧.is_ready printer) }
    ensures prints { IfOk result (λ printer. (lines : List LineEvent)
        → ⟦<ReplayPrinter<'a, TableReads<'a>> as LinePrinter>⟧.printed printer 1 lines
        ≡ replay_printed project.now lines) }
{
    let readings = readings_of(alloc, project)?;
    ReplayPrinter::new(alloc, &project.rules, &project.objects, readings)
}

/// The reading of a project's rules by their decision tables.
fn readings_of<'a>(alloc: Global, project: &'a Project) -> Result<TableReads<'a>, NoMemory>
    requires well_formed { WellFormed project.now.rules }
    ensures ready { IfOk result ⟦<TableReads<'a> as Reads>⟧.is_ready }
    ensures made_for { IfOk result
        (λ reads. ⟦<TableReads<'a> as Reads>⟧.made_for reads ≡ project.now.rules) }
    ensures held { IfOk result
        (λ reads. ⟦<TableReads<'a> as Reads>⟧.held reads ≡ project.now.tables) }
    ensures choice { IfOk result
        (λ reads. ⟦<TableReads<'a> as Reads>⟧.choice reads ≡ settling project.now.rules) }
{
    let link_tables = compile(alloc, &project.rules)?;
    TableReads::new(alloc, &project.rules, &project.tables, &link_tables)
}
