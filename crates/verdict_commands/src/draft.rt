//! The report of a prepared project, written while its questions are decided.
ghost use Rattle.std.specs.Prelude.{◌≡◌, ◌++◌, false, IfOk};
ghost use Rattle.verdict_meaning.specs.Verdicts.{IsVerdict};
ghost use Rattle.verdict_commands.specs.Preparing.{IsReady};
ghost use Rattle.verdict_commands.specs.Proves.{completion_by, is_refuted, is_undecided};
ghost use Rattle.verdict_commands.specs.internal.Drafts.{AddsEntry, IsDraft, IsReport};
ghost use Rattle.verdict_commands.specs.internal.Drafts.{decided_text, first_text};

use crate::decided_report::Report;
use crate::prepared::Prepared;
use byte_edge::NoMemory;
use command_outputs::Completion;
use report_reader::grid_of;
use report_text::{write_end, write_entry, write_start};
use std::alloc::Global;
use verdict_meaning::{Question, Verdict};
use verdict_search::decide;

/// A report but for its last line, with the entries of the questions that are decided so far, and
/// whether one of these is refuted and one undecided.
#[derive(Drop)]
pub(crate) struct Draft {
    text: Vec<u8>,
    refuted: bool,
    undecided: bool,
}

impl Draft {
    /// The first line of a report.
    pub(crate) fn new(alloc: Global) -> Result<Draft, NoMemory>
        ensures text { IfOk result (λ draft. draft.text.items ≡ first_text) }
        ensures refuted { IfOk result (λ draft. draft.refuted ≡ false) }
        ensures undecided { IfOk result (λ draft. draft.undecided ≡ false) }
    {
        let mut text = Vec::new(alloc);
        write_start(&mut text)?;
        Ok(Draft {
            text,
            refuted: false,
            undecided: false,
        })
    }

    /// This report with the entry of one question more, which is decided first.
    pub(crate) fn with_entry(
        self,
        alloc: Global,
        prepared: &Prepared,
        question: &Question,
    ) -> Result<Draft, NoMemory>
        requires ready { IsReady prepared.now }
        ensures { IfOk result (λ draft. AddsEntry prepared.now question.now
            self.text.items draft.text.items self.refuted draft.refuted
            self.undecided draft.undecided) }
    {
        let Draft {
            mut text,
            refuted,
            undecided,
        } = self;
        let verdict = write_decided(&mut text, alloc, prepared, question)?;
        Ok(Draft {
            text,
            refuted: refuted || is_refuted(&verdict),
            undecided: undecided || is_undecided(&verdict),
        })
    }

    /// This report with its last line.
    pub(crate) fn ended(self, prepared: &Prepared) -> Result<Report, NoMemory>
        requires draft { IsDraft prepared.now self.text.items self.refuted self.undecided }
        ensures { IfOk result
            (λ report. IsReport prepared.now report.text.items report.completion) }
    {
        let Draft {
            mut text,
            refuted,
            undecided,
        } = self;
        write_end(&mut text)?;
        Ok(Report {
            text,
            completion: completion_by(refuted, undecided),
        })
    }
}

/// Decides a question, writes its entry behind a text, and gives the verdict.
fn write_decided(
    text: &mut Vec<u8>,
    alloc: Global,
    prepared: &Prepared,
    question: &Question,
) -> Result<Verdict, NoMemory>
    requires ready { IsReady prepared.now }
    ensures right { IfOk result (λ verdict. IsVerdict prepared.now.project.rules
        prepared.now.project.tables prepared.now.ranges question.now verdict) }
    ensures text { IfOk result (λ verdict. text.new.items
        ≡ text.old.items ++ decided_text prepared.now question.now verdict) }
{
    let project = &prepared.project;
    let rules = &project.rules;
    let verdict = decide(alloc, rules, &project.tables, &prepared.ranges, question)?;
    let grid = grid_of(alloc, rules, question)?;
    write_entry(text, rules, &project.objects, &grid, question, &verdict)?;
    Ok(verdict)
}

/// Whether a verdict is that of a refuted question.
fn is_refuted(verdict: &Verdict) -> bool
    ensures { result ≡ is_refuted verdict.now }
{
    matches!(verdict, Verdict::Refuted(_))
}

/// Whether a verdict is that of an undecided question.
fn is_undecided(verdict: &Verdict) -> bool
    ensures { result ≡ is_undecided verdict.now }
{
    matches!(verdict, Verdict::Undecided(_))
}

/// How a run ends by what is so of some question.
fn completion_by(refuted: bool, undecided: bool) -> Completion
    ensures { result ≡ completion_by refuted undecided }
{
    if refuted {
        return Completion::Refuted;
    }
    if undecided {
        return Completion::Undecided;
    }
    Completion::Done
}
