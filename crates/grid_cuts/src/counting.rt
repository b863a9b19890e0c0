//! The number of cells of a grid.
ghost use Rattle.std.specs.Prelude.{◌≡◌, ◌*◌};
ghost use Rattle.verdict_meaning.specs.Verdicts.{written_count};
ghost use Rattle.grid_blocks.specs.GridBoxes.{piece_count};
ghost use Rattle.grid_cuts.specs.internal.Gridded.{piece_product};

use exact_fraction::frac::Frac;
use grid_blocks::KeyCuts;

/// The greatest number of cells.
pub(crate) const MOST_CELLS: u64 = 1_048_576;

/// The number of cells of keys with their cuts and of so many pieces of moments; 2^64-1 where there
/// are more.
pub(crate) fn cell_count(axes: &[KeyCuts], moments: u64) -> u64
    ensures value { result ≡ written_count (piece_product axes.now * moments) }
{
    let mut count = moments;
    for axis in axes {
        count = count.saturating_mul(piece_count(axis.cuts.as_slice()));
    }
    count
}

/// The number of pieces of so many cuts: the cuts, and the gaps between them.
fn piece_count(cuts: &[Frac]) -> u64
    ensures value { result ≡ piece_count cuts.now }
{
    (2 * cuts.len() as u64).saturating_sub(1)
}
