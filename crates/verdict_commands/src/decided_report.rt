//! The whole report of a prepared project.
ghost use Rattle.std.specs.Prelude.{IfOk};
ghost use Rattle.verdict_commands.specs.Preparing.{IsReady};
ghost use Rattle.verdict_commands.specs.internal.Drafts.{IsReport};

use crate::draft::Draft;
use crate::prepared::Prepared;
use byte_edge::NoMemory;
use command_outputs::Completion;
use std::alloc::Global;

/// A whole report, and how a run ends that writes it.
#[derive(Drop)]
pub(crate) struct Report {
    pub(crate) text: Vec<u8>,
    pub(crate) completion: Completion,
}

/// Decides the questions of a prepared project in their order, and writes the report.
///
/// NoMemory only where memory is wanting. It takes memory for the report, and for one question at a
/// time.
pub(crate) fn decide_all(alloc: Global, prepared: &Prepared) -> Result<Report, NoMemory>
    requires ready { IsReady prepared.now }
    ensures { IfOk result (λ report. IsReport prepared.now report.text.items report.completion) }
{
    let mut draft = Draft::new(alloc)?;
    for question in prepared.ranges.questions.as_slice() {
        draft = draft.with_entry(alloc, prepared, question)?;
    }
    draft.ended(prepared)
}
