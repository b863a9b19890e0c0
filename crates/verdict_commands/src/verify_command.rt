//! The command `verify`.
ghost use Rattle.std.specs.Prelude.{◌≡◌, IfOk};
ghost use Rattle.command_outputs.specs.Commands.{Performs};
ghost use Rattle.verdict_commands.specs.Verifies.{completion_of, verify_outcome, verify_roles};
ghost use Rattle.verdict_commands.specs.Verifies.{verify_text};

use crate::prepared::read_ranges_file;
use crate::report::read_report_file;
use byte_edge::{Files, NoMemory, Sink};
use command_outputs::{Complaint, Completion, write_text};
use input_check::read_input;
use report_checker::Counts;
use std::alloc::Global;

/// `verify IN RANGES REPORT`: reads the input file, then the ranges, then the report, each only
/// where the one before is accepted; and where every entry of the report is accepted, writes how
/// many hold, are refuted and are undecided.
///
/// It ends with Refuted where some entry is refuted, else with Undecided where some entry is
/// undecided, else with Done.
pub fn verify<F: Files, O: Sink>(
    alloc: Global,
    input: &str,
    ranges: &str,
    report: &str,
    files: &mut F,
    out: &mut O,
) -> Result<Completion, Complaint>
    ensures performs { Performs verify_roles
        (verify_outcome (F.held files.old) input.now ranges.now report.now)
        (F.is_open files.new) (F.left files.old) (F.left files.new)
        (F.faults files.old) (F.faults files.new)
        (O.written out.old) (O.written out.new) (O.faults out.old) (O.faults out.new) result }
{
    let project = read_input(alloc, input, files)?;
    let prepared = read_ranges_file(alloc, ranges, project, files)?;
    let counts = read_report_file(alloc, report, &prepared, files);
    drop(prepared);
    let counts = counts?;
    let Ok(text) = verify_text(alloc, &counts) else {
        return Err(Complaint::OutOfMemory);
    };
    write_text(out, &text, completion_of(&counts))
}

/// How a run ends that accepted so many entries.
fn completion_of(counts: &Counts) -> Completion
    ensures value { result ≡ completion_of counts.now }
{
    if counts.refuted > 0 {
        return Completion::Refuted;
    }
    if counts.undecided > 0 {
        return Completion::Undecided;
    }
    Completion::Done
}

/// The text of `verify`.
fn verify_text(alloc: Global, counts: &Counts) -> Result<Vec<u8>, NoMemory>
    ensures value { IfOk result (λ text. text.items ≡ verify_text counts.now) }
{
    let holds = counts.holds.to_string(alloc)?;
    let refuted = counts.refuted.to_string(alloc)?;
    let undecided = counts.undecided.to_string(alloc)?;
    let mut text = Vec::new(alloc);
    text.extend_from_slice(b"verified holds ")?;
    text.extend_from_slice(holds.as_bytes())?;
    text.extend_from_slice(b" refuted ")?;
    text.extend_from_slice(refuted.as_bytes())?;
    text.extend_from_slice(b" undecided ")?;
    text.extend_from_slice(undecided.as_bytes())?;
    text.push(b'\n')?;
    Ok(text)
}
