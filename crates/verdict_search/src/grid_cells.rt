//! The boxes and the samples of a grid's cells.
ghost use Rattle.std.specs.Prelude.{◌≡◌, ◌<◌, ◌-◌, ◌^◌, All, IfOk, IfSome};
ghost use Rattle.rule_types.specs.Fitting.{FitsRules};
ghost use Rattle.rule_types.specs.WellFormed.{WellFormed};
ghost use Rattle.block_search.specs.Blocks.{IsWithin, block_of};
ghost use Rattle.verdict_meaning.specs.Grids.{sample_of};
ghost use Rattle.grid_blocks.specs.GridBoxes.{cell_of, lengths};
ghost use Rattle.grid_blocks.specs.GridOrder.{IsInOrder};
ghost use Rattle.grid_blocks.specs.GridsOf.{HasFewPieces};
ghost use Rattle.grid_samples.specs.Cells.{HasPieces};

use block_search::Span;
use byte_edge::NoMemory;
use grid_blocks::Grid;
use grid_samples::sample;
use rule_types::{Rules, State};
use std::alloc::Global;
use verdict_meaning::Cell;

/// The block of one cell. NoMemory is the only error.
#[tactic(auto, unfolding(block_search::specs::Blocks::block_of))]
fn block_of(alloc: Global, cell: &[u32]) -> Result<Vec<Span>, NoMemory>
    requires short { All (λ piece. piece < 2 ^ 32 - 1) cell.now }
    ensures value { IfOk result (λ block. block.items ≡ block_of cell.now) }
{
    let mut block = Vec::with_capacity(alloc, cell.len())?;
    for piece in cell {
        block.push(Span {
            low: *piece,
            high: *piece + 1,
        })?;
    }
    Ok(block)
}

/// The box of a cell of a grid. NoMemory is the only error.
pub(crate) fn cell_of(alloc: Global, grid: &Grid, cell: &[u32]) -> Result<Cell, NoMemory>
    requires order { IsInOrder grid.now }
    requires short { HasFewPieces grid.now }
    requires within { IsWithin (lengths grid.now) (block_of cell.now) }
    ensures value { IfOk result (λ one. one ≡ cell_of grid.now cell.now) }
{
    let block = block_of(alloc, cell)?;
    grid.box_of(alloc, &block)
}

/// The sample of a cell of a grid, if it has one. NoMemory is the only error.
pub(crate) fn sample_at(
    alloc: Global,
    rules: &Rules,
    grid: &Grid,
    cell: &[u32],
) -> Result<Option<State>, NoMemory>
    requires order { IsInOrder grid.now }
    requires short { HasFewPieces grid.now }
    requires within { IsWithin (lengths grid.now) (block_of cell.now) }
    requires formed { WellFormed rules.now }
    requires pieces { HasPieces (cell_of grid.now cell.now) }
    ensures value { IfOk result (λ sample.
        sample ≡ sample_of rules.now (cell_of grid.now cell.now)) }
    ensures fits { IfOk result (λ sample. IfSome sample (FitsRules rules.now)) }
{
    let one = cell_of(alloc, grid, cell)?;
    sample(alloc, rules, &one)
}
