//! The decision of a block.
ghost use Rattle.std.specs.Prelude.{◌≡◌, IfOk};
ghost use Rattle.block_search.specs.Blocks.{IsWithin};
ghost use Rattle.block_search.specs.Outcomes.{IsDecision};

use crate::open_cell::first_open;
use crate::outcome::Outcome;
use crate::search::search_block;
use crate::span::Span;
use crate::task::Task;
use crate::tree::Tree;
use byte_edge::NoMemory;
use list_types::Items;
use std::alloc::Global;

/// The answer to a question over a block.
#[derive(Debug, Drop)]
pub enum Decision {
    /// No cell has the event, as this tree shows.
    Holds(Tree),
    /// This is the first cell with the event.
    Refuted(Items<u32>),
    /// No cell has the event, and this is the first cell that is not shown.
    Cell(Items<u32>),
}

/// The answer to a question over a block. NoMemory is the only error.
pub fn decide<T: Task>(alloc: Global, task: &T, block: &[Span]) -> Result<Decision, NoMemory>
    requires ready { T.is_ready task.now }
    requires within { IsWithin (T.judged task.now).axes block.now }
    ensures decision { IfOk result (IsDecision (T.judged task.now) block.now) }
{
    let outcome = search_block(alloc, task, block)?;
    match outcome {
        Outcome::Proved(tree) => Ok(Decision::Holds(tree)),
        Outcome::Event(cell) => Ok(Decision::Refuted(cell)),
        Outcome::Open => {
            let first = first_open(alloc, task, block)?;
            let Some(cell) = first else {
                unreachable!();
            };
            Ok(Decision::Cell(cell))
        }
    }
}
