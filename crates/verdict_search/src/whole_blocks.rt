//! The block of all cells of a grid.
ghost use Rattle.std.specs.Prelude.{◌≡◌, IfOk};
ghost use Rattle.block_search.specs.Blocks.{whole_block};
ghost use Rattle.grid_blocks.specs.GridBoxes.{lengths};
ghost use Rattle.grid_blocks.specs.GridsOf.{HasFewPieces};

use block_search::Span;
use byte_edge::NoMemory;
use grid_blocks::Grid;
use std::alloc::Global;

/// The block of all cells of a grid. NoMemory is the only error.
pub(crate) fn whole_block(alloc: Global, grid: &Grid) -> Result<Vec<Span>, NoMemory>
    requires short { HasFewPieces grid.now }
    ensures value { IfOk result (λ block. block.items ≡ whole_block (lengths grid.now)) }
{
    let counts = grid.lengths(alloc)?;
    block_to(alloc, &counts)
}

/// The block of all pieces of axes that have so many. NoMemory is the only error.
#[tactic(auto, unfolding(block_search::specs::Blocks::whole_block))]
fn block_to(alloc: Global, counts: &[u32]) -> Result<Vec<Span>, NoMemory>
    ensures value { IfOk result (λ block. block.items ≡ whole_block counts.now) }
{
    let mut block = Vec::with_capacity(alloc, counts.len())?;
    for count in counts {
        block.push(Span {
            low: 0,
            high: *count,
        })?;
    }
    Ok(block)
}
