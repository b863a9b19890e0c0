//! The answer to a question.
ghost use Rattle.std.specs.Prelude.{◌≡◌, ◌≤◌, IfOk};
ghost use Rattle.rule_types.specs.declared.rules.Rules.{Rules as AnyRules};
ghost use Rattle.rule_types.specs.Tables.{HoldsTables, TableSet};
ghost use Rattle.rule_types.specs.WellFormed.{WellFormed};
ghost use Rattle.block_search.specs.Blocks.{IsWithin, block_of, whole_block as all_pieces};
ghost use Rattle.block_search.specs.Outcomes.{IsDecision};
ghost use Rattle.verdict_meaning.specs.declared.question.Question.{Question as AnyQuestion};
ghost use Rattle.verdict_meaning.specs.declared.ranges.Ranges.{Ranges as AnyRanges};
ghost use Rattle.verdict_meaning.specs.Boxes.{IsPrepared};
ghost use Rattle.verdict_meaning.specs.FitRanges.{RangesFit};
ghost use Rattle.verdict_meaning.specs.Grids.{cell_count};
ghost use Rattle.verdict_meaning.specs.Verdicts.{IsVerdict, most_cells};
ghost use Rattle.grid_blocks.specs.GridBoxes.{lengths};
ghost use Rattle.grid_trees.specs.GridJudgements.{judgement_of};
ghost use Rattle.grid_cuts.specs.Ends.{IsGridEnd};
ghost use Rattle.grid_samples.specs.Cells.{HasClosedRanges};
ghost use Rattle.verdict_search.specs.internal.Tasks.{IsReady};

use crate::grid_cells::{cell_of, sample_at};
use crate::grid_task::GridTask;
use crate::whole_blocks::whole_block;
use block_search::Decision;
use byte_edge::NoMemory;
use curves_series::Tables;
use grid_cuts::{GridEnd, grid_of};
use grid_trees::cert_of;
use rule_types::Rules;
use std::alloc::Global;
use verdict_meaning::{Question, Ranges, Stuck, Verdict};

/// The answer to a question over ranges: Holds with a certificate that no state of the ranges has
/// the event, Refuted with the first sample of the grid that has it, or Undecided with the first
/// cell that is not shown, or with the number of cells where they are more than 1,048,576. NoMemory
/// is the only error. For each cell it asks at most three times whether a block is shown and once
/// whether a sample has the event, and where the answer is a cell three times more whether a block
/// is shown; and for each fact of a block that is shown it asks whether the others show it. Each
/// takes time by the sizes of the question's rules and by the actions of all rules. It takes memory
/// by the number of nodes and facts of the certificate.
pub fn decide(
    alloc: Global,
    rules: &Rules,
    tables: &Tables,
    ranges: &Ranges,
    question: &Question,
) -> Result<Verdict, NoMemory>
    requires formed { WellFormed rules.now }
    requires tables { HoldsTables tables.now rules.now.rules }
    requires prepared { IsPrepared rules.now ranges.now }
    requires fit { RangesFit rules.now ranges.now }
    requires closed { HasClosedRanges ranges.now }
    ensures verdict { IfOk result (IsVerdict rules.now tables.now ranges.now question.now) }
{
    match grid_of(alloc, rules, question, ranges) {
        Ok(grid) => {
            let task = GridTask {
                rules,
                tables,
                question,
                ranges,
                grid: &grid,
            };
            search_grid(alloc, &task)
        }
        Err(end) => without_grid(end),
    }
}

/// The answer where there is no grid. NoMemory is the only error.
fn without_grid(end: GridEnd) -> Result<Verdict, NoMemory>
    ensures verdict { (x : AnyRules) (tables : TableSet) (ranges : AnyRanges)
        (question : AnyQuestion) → IsGridEnd x ranges question end
        → IfOk result (IsVerdict x tables ranges question) }
{
    match end {
        GridEnd::TooManyCells(count) => Ok(Verdict::Undecided(Stuck::TooManyCells(count))),
        GridEnd::NoMemory => Err(NoMemory),
    }
}

/// The answer over a grid. NoMemory is the only error.
fn search_grid(alloc: Global, task: &GridTask<'_>) -> Result<Verdict, NoMemory>
    requires ready { IsReady task.now.rules.now task.now.tables.now task.now.question.now
        task.now.ranges.now task.now.grid.now }
    requires few { cell_count task.now.rules.now task.now.question.now task.now.ranges.now
        ≤ most_cells }
    ensures verdict { IfOk result (IsVerdict task.now.rules.now task.now.tables.now
        task.now.ranges.now task.now.question.now) }
{
    let block = whole_block(alloc, task.grid)?;
    let decision = block_search::decide(alloc, task, &block)?;
    verdict_of(alloc, task, decision)
}

/// The answer by the decision of a grid's cells. NoMemory is the only error.
fn verdict_of(alloc: Global, task: &GridTask<'_>, decision: Decision) -> Result<Verdict, NoMemory>
    requires ready { IsReady task.now.rules.now task.now.tables.now task.now.question.now
        task.now.ranges.now task.now.grid.now }
    requires few { cell_count task.now.rules.now task.now.question.now task.now.ranges.now
        ≤ most_cells }
    requires decision { IsDecision (judgement_of task.now.rules.now task.now.tables.now
        task.now.question.now task.now.grid.now)
        (all_pieces (lengths task.now.grid.now)) decision }
    ensures verdict { IfOk result (IsVerdict task.now.rules.now task.now.tables.now
        task.now.ranges.now task.now.question.now) }
{
    match decision {
        Decision::Holds(tree) => {
            let cert = cert_of(alloc, task.grid, tree)?;
            Ok(Verdict::Holds(cert))
        }
        Decision::Refuted(cell) => {
            let sample = sample_at(alloc, task.rules, task.grid, cell.as_slice())?;
            let Some(state) = sample else {
                unreachable!();
            };
            Ok(Verdict::Refuted(state))
        }
        Decision::Cell(cell) => {
            let open = cell_of(alloc, task.grid, cell.as_slice())?;
            Ok(Verdict::Undecided(Stuck::Cell(open)))
        }
    }
}
