//! The lines of [CONTROLS] in their order.
ghost use Rattle.std.specs.Prelude.{◌≡◌, IfOk, Result, option_map, Some};
ghost use Rattle.inp_text.specs.Headings.{first_of as front_of};
ghost use Rattle.rule_types.specs.declared.refusal.Refusal.{Refusal as AnyRefusal};
ghost use Rattle.control_lines.specs.Faults.{Checked};
ghost use Rattle.control_lines.specs.Views.{checked_now, fault_now, texts, statement_now};
ghost use Rattle.control_lines.specs.Clauses.{next_stage};
ghost use Rattle.rule_parser.specs.Controls.{no_draft, order_from, finished, draft_after};
ghost use Rattle.rule_parser.specs.Controls.{line_read, after_line, controls_from};
ghost use Rattle.rule_parser.specs.internal.Views.{context_now, Follows, going_on, told_refusal};
ghost use Rattle.rule_parser.specs.internal.Fitting.{IsDone};
ghost use Rattle.rule_parser.specs.internal.Views.{formula_text as text_of};
ghost use Rattle.rule_parser.specs.declared.draft.Draft.{Draft as AnyDraft};

use crate::context::Context;
use crate::draft::Draft;
use crate::formula::formula_text;
use byte_edge::NoMemory;
use control_lines::{Clause, Fault, Stage, Statement, read_statement};
use inp_text::{SourceLine, cut_line};
use rule_types::{Cause, Refusal};
use std::alloc::Global;

/// The rules and names of the lines of [CONTROLS], or the refusal of the first line that is at
/// fault (SWMM 5.2 manual, [CONTROLS]).
pub(crate) fn read_controls(
    alloc: Global,
    context: Context<'_>,
    lines: &[SourceLine],
) -> Result<Result<Draft, Refusal>, NoMemory>
    ensures value { IfOk result (λ read. read
        ≡ controls_from (context_now context.entry) no_draft lines.now) }
    ensures fits { IfOk result (λ read. IfOk read (IsDone context.entry.objects.now)) }
{
    match read_lines(alloc, context, lines) {
        Ok(read) => Ok(read),
        Err(_) => Err(NoMemory),
    }
}

/// The rules and names of lines, or the refusal of the first line that is at fault.
fn read_lines(
    alloc: Global,
    context: Context<'_>,
    lines: &[SourceLine],
) -> Result<Result<Draft, Refusal>, NoMemory>
    ensures { IfOk result (λ read. read
        ≡ controls_from (context_now context.entry) no_draft lines.now) }
{
    let mut draft = Draft::new(alloc);
    for (index, line) in lines.iter().enumerate() {
        let is_last = index + 1 == lines.len();
        if let Some(refusal) = draft.take_line(alloc, context, is_last, line)? {
            return Ok(Err(refusal));
        }
    }
    Ok(Ok(draft))
}

/// The first of some items, and no bytes where there is none.
fn first_of<'a>(found: &[&'a [u8]]) -> &'a [u8]
    ensures { result.now ≡ front_of (texts found.now) }
{
    match found {
        [] => &[],
        [item, ..] => item,
    }
}

/// The refusal of a line, if it is at fault.
fn refusal_by(
    alloc: Global,
    number: u64,
    told: Option<Fault<'_>>,
) -> Result<Option<Refusal>, NoMemory>
    ensures { IfOk result (λ refusal. refusal
        ≡ told_refusal number (option_map fault_now told.entry)) }
{
    match told {
        Some(fault) => Ok(Some(fault.refusal(alloc, number)?)),
        None => Ok(None),
    }
}

/// The stage after a clause that may come there; the last one of a file leaves no rule unfinished.
fn read_order(stage: Stage, clause: Clause, is_last: bool, token: &[u8]) -> Result<Stage, Fault<'_>>
    ensures { checked_now result ≡ order_from (next_stage stage clause) is_last token.now }
{
    match stage.next(clause) {
        Some(next) if !is_last || next.is_complete() => Ok(next),
        _ => Err(Fault {
            cause: Cause::ClauseOrder,
            token,
        }),
    }
}

impl Draft {
    /// Takes one more line, and gives its refusal if it is at fault.
    #[tactic(auto, unfolding(crate::specs::Controls::line_read))]
    fn take_line(
        &mut self,
        alloc: Global,
        context: Context<'_>,
        is_last: bool,
        line: &SourceLine,
    ) -> Result<Option<Refusal>, NoMemory>
        ensures { IfOk result (λ refusal. (later : AnyDraft → Result AnyDraft AnyRefusal)
            → after_line line.now.number
            (line_read (context_now context.entry) self.old is_last line.now.bytes) later
            ≡ going_on refusal self.new later) }
    {
        let items = cut_line(alloc, line.bytes.as_slice())?;
        let token = first_of(items.as_slice());
        let statement = read_statement(self.stage, items.as_slice());
        let text = formula_text(alloc, &statement)?;
        let told = self.take(alloc, context, is_last, statement, token, text.as_slice())?;
        refusal_by(alloc, line.number, told)
    }

    /// Takes one more statement, whose first item is `token`.
    fn take<'a>(
        &mut self,
        alloc: Global,
        context: Context<'_>,
        is_last: bool,
        statement: Option<Statement<'a>>,
        token: &'a [u8],
        text: &'a [u8],
    ) -> Result<Option<Fault<'a>>, NoMemory>
        requires text { text.now ≡ text_of (option_map statement_now statement) }
        ensures { IfOk result (λ told. Follows (draft_after (context_now context.entry) self.old
            is_last token.now (option_map statement_now statement.entry)) told self.new) }
    {
        let Some(statement) = statement else {
            return Ok(Some(Fault {
                cause: Cause::BadClause,
                token,
            }));
        };
        let order = read_order(self.stage, statement.clause(), is_last, token);
        let told = self.add(alloc, context, &statement, text)?;
        Ok(self.finish(order, told))
    }

    /// Puts the stage after a statement, unless the statement or its order is at fault.
    #[tactic(auto, unfolding(control_lines::specs::Faults::both))]
    fn finish<'a>(
        &mut self,
        order: Result<Stage, Fault<'a>>,
        told: Option<Fault<'a>>,
    ) -> Option<Fault<'a>>
        ensures { (due : Checked AnyDraft) → Follows due told.entry self.old
            → Follows (finished (checked_now order.entry) due) result self.new }
    {
        match (order, told) {
            (Ok(stage), None) => {
                self.stage = stage;
                None
            }
            (Ok(_), Some(fault)) => Some(fault),
            (Err(fault), None) => Some(fault),
            (Err(one), Some(other)) => Some(one.sooner(other)),
        }
    }
}
