//! A question over the grid of its ranges.
ghost use Rattle.std.specs.Prelude.{◌≡◌, false, IfOk};

use crate::grid_cells::sample_at;
use block_search::{Span, Task};
use box_eval::shown;
use byte_edge::NoMemory;
use curves_series::Tables;
use grid_blocks::Grid;
use leaf_facts::facts_of;
use list_types::Items;
use rule_types::Rules;
use state_checker::has_event;
use std::alloc::Global;
use verdict_meaning::{Question, Ranges};

/// A question over the grid of its ranges: a block is shown where its box is, and a cell has the
/// event where its sample has it.
#[derive(Clone, Copy)]
pub(crate) struct GridTask<'a> {
    pub rules: &'a Rules,
    pub tables: &'a Tables,
    pub question: &'a Question,
    pub ranges: &'a Ranges,
    pub grid: &'a Grid,
}

impl Task for GridTask<'_> {
    ghost use Rattle.grid_trees.specs.GridJudgements.{judgement_of};
    ghost use Rattle.grid_events.proofs.PublicLaws.{shown_blocks-no_event};
    ghost use Rattle.verdict_search.specs.internal.Tasks.{IsReady};

    ghost judged = { λ task. judgement_of task.rules.now task.tables.now task.question.now
        task.grid.now };

    ghost is_ready = { λ task. IsReady task.rules.now task.tables.now task.question.now
        task.ranges.now task.grid.now };

    #[tactic(auto, unfolding(grid_trees::specs::GridJudgements::judgement_of))]
    fn has_moments(&self, axis: usize) -> bool {
        axis >= self.grid.keys.len()
    }

    #[tactic(auto, unfolding(grid_trees::specs::GridJudgements::judgement_of))]
    fn is_shown(&self, alloc: Global, block: &[Span]) -> Result<bool, NoMemory> {
        let cell = self.grid.box_of(alloc, block)?;
        shown(alloc, self.question, self.rules, self.tables, &cell)
    }

    #[tactic(auto, unfolding(grid_trees::specs::GridJudgements::judgement_of))]
    fn reason(&self, alloc: Global, block: &[Span]) -> Result<Items<(u32, bool)>, NoMemory> {
        let cell = self.grid.box_of(alloc, block)?;
        facts_of(alloc, self.rules, self.tables, self.question, &cell)
    }

    #[tactic(auto, unfolding(grid_trees::specs::GridJudgements::judgement_of))]
    fn has_event(&self, alloc: Global, cell: &[u32]) -> Result<bool, NoMemory> {
        match sample_at(alloc, self.rules, self.grid, cell)? {
            Some(state) => has_event(alloc, self.rules, self.tables, self.question, &state),
            None => Ok(false),
        }
    }

    ghost sound = { λ task block ready. shown_blocks-no_event task.rules.now task.tables.now
        task.question.now task.ranges.now task.grid.now block ready.formed ready.tables_held
        ready.closed ready.grid_is };
}
