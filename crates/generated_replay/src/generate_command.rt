//! The command `gen`.
ghost use Rattle.std.specs.Prelude.{◌≡◌, ◌≤◌, IfOk};
ghost use Rattle.command_outputs.specs.Commands.{Performs};
ghost use Rattle.rule_meaning.specs.Reading.{settling};
ghost use Rattle.rule_types.specs.Tables.{HoldsTables};
ghost use Rattle.rule_types.specs.WellFormed.{WellFormed};
ghost use Rattle.generated_replay.specs.GeneratedText.{gen_outcome, gen_roles, gen_text};
ghost use Rattle.generated_replay.specs.GeneratedText.{text_of as text_of_files, tally_judged};
ghost use Rattle.trace_tally.specs.Giving.{Gives, tally_seen};

use crate::input::project_of;
use crate::text::tally_text;
use byte_edge::{Files, NoMemory, Sink};
use command_outputs::{Complaint, Completion, Role, TRACE_FILE, write_text};
use model_generator::gen_files;
use rule_parser::Project;
use std::alloc::Global;
use table_compiler::compile;
use table_run::TableReads;
use trace_replay::Reads;
use trace_tally::{Replayed, replay_trace};

/// `gen N`, for an N from 1 to 1,000: makes the input file and the trace of the model of `n` pumps
/// in memory, replays the trace, and writes how many pumps, rules, rows and switches there are, and
/// the setting of each pump after the last row. A switch is a pair of a row and a pump whose
/// setting changed there. No file is opened.
pub fn generate<F: Files, O: Sink>(
    alloc: Global,
    n: u32,
    _files: &F,
    out: &mut O,
) -> Result<Completion, Complaint>
    requires least { 1 ≤ n }
    requires most { n ≤ 1000 }
    ensures performs { Performs gen_roles (gen_outcome n) (F.is_open _files.now)
        (F.left _files.now) (F.left _files.now) (F.faults _files.now) (F.faults _files.now)
        (O.written out.old) (O.written out.new) (O.faults out.old) (O.faults out.new) result }
{
    match generated_text(alloc, n) {
        Ok(text) => write_text(out, &text, Completion::Done),
        Err(complaint) => Err(complaint),
    }
}

/// The text of the command.
fn generated_text(alloc: Global, n: u32) -> Result<Vec<u8>, Complaint>
    requires least { 1 ≤ n }
    requires most { n ≤ 1000 }
    ensures gives { Gives (gen_text n) (λ text. text.items) result }
{
    let Ok((input, trace)) = gen_files(alloc, n) else {
        return Err(Complaint::OutOfMemory);
    };
    let text = text_of(alloc, n, &input, &trace);
    drop(input);
    drop(trace);
    text
}

/// The text over an input file and a trace with these bytes.
fn text_of(alloc: Global, n: u32, input: &[u8], trace: &[u8]) -> Result<Vec<u8>, Complaint>
    requires most { n ≤ 1000 }
    ensures gives { Gives (text_of_files n input.now trace.now) (λ text. text.items) result }
{
    let project = match project_of(alloc, input) {
        Ok(project) => project,
        Err(complaint) => return Err(complaint),
    };
    let replayed = match replay_project(alloc, &project, trace) {
        Ok(replayed) => replayed,
        Err(complaint) => {
            drop(project);
            return Err(complaint);
        }
    };
    let text = tally_text(alloc, n, &project, &replayed);
    drop(replayed);
    drop(project);
    match text {
        Ok(text) => Ok(text),
        Err(_) => Err(Complaint::OutOfMemory),
    }
}

/// Replays the rules of a project over a trace with these bytes, by their decision tables.
fn replay_project(alloc: Global, project: &Project, trace: &[u8]) -> Result<Replayed, Complaint>
    requires well_formed { WellFormed project.now.rules }
    requires tables { HoldsTables project.now.tables project.now.rules.rules }
    ensures gives { Gives (tally_judged project.now trace.now) tally_seen result }
{
    if trace.len() as u64 > TRACE_FILE.budget {
        return Err(Complaint::TooLong(Role::Trace));
    }
    let Ok(readings) = readings_of(alloc, project) else {
        return Err(Complaint::OutOfMemory);
    };
    replay_trace(alloc, &project.rules, &project.objects, readings, trace)
}

/// The reading of a project's rules by their decision tables.
fn readings_of<'a>(alloc: Global, project: &'a Project) -> Result<TableReads<'a>, NoMemory>
    requires well_formed { WellFormed project.now.rules }
    ensures ready { IfOk result ⟦<TableReads<'a> as Reads>⟧.is_ready }
    ensures made_for { IfOk result
        (λ reads. ⟦<TableReads<'a> as Reads>⟧.made_for reads ≡ project.now.rules) }
    ensures held { IfOk result
        (λ reads. ⟦<TableReads<'a> as Reads>⟧.held reads ≡ project.now.tables) }
    ensures choice { IfOk result
        (λ reads. ⟦<TableReads<'a> as Reads>⟧.choice reads ≡ settling project.now.rules) }
{
    let link_tables = compile(alloc, &project.rules)?;
    TableReads::new(alloc, &project.rules, &project.tables, &link_tables)
}
