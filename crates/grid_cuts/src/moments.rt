//! The moments of a grid.
ghost use Rattle.std.specs.Prelude.{◌≡◌, IfOk, Some};
ghost use Rattle.rule_types.specs.WellFormed.{WellFormed};
ghost use Rattle.verdict_meaning.specs.Premises.{start_of};
ghost use Rattle.grid_cuts.specs.internal.Gridded.{AreMomentsOf};

use crate::counting::MOST_CELLS;
use byte_edge::NoMemory;
use exact_fraction::moment::Moment;
use grid_blocks::MomentPieces;
use moment_pieces::{Cuts, moment_cuts};
use rule_types::Rules;
use std::alloc::Global;

/// The pieces of the moments of a grid, if it has moments. They are not listed where there are more
/// than cells can be.
#[derive(Drop)]
pub(crate) struct GridMoments {
    pub(crate) pieces: Option<MomentPieces>,
    /// The number of pieces, and 1 where there are no moments.
    pub(crate) count: u64,
}

/// The pieces of the moments of a box, where `asked` are the numbers of the question's rules.
/// NoMemory is the one error.
pub(crate) fn moments_of(
    alloc: Global,
    rules: &Rules,
    asked: &[u32],
    span: &Option<(Moment, Moment)>,
    start: Moment,
) -> Result<GridMoments, NoMemory>
    requires rules { WellFormed rules.now }
    requires start { start_of rules.now ≡ start }
    ensures moments { IfOk result (AreMomentsOf rules.now asked.now span.now) }
{
    match span {
        None => Ok(GridMoments {
            pieces: None,
            count: 1,
        }),
        Some((from, to)) => pieces_between(alloc, rules, asked, *from, *to, start),
    }
}

/// The pieces of the moments from one to another.
fn pieces_between(
    alloc: Global,
    rules: &Rules,
    asked: &[u32],
    from: Moment,
    to: Moment,
    start: Moment,
) -> Result<GridMoments, NoMemory>
    requires rules { WellFormed rules.now }
    requires start { start_of rules.now ≡ start }
    ensures moments { IfOk result (AreMomentsOf rules.now asked.now (Some (from, to))) }
{
    let step = rules.routing_step;
    let Cuts { count, firsts } = moment_cuts(
        alloc, rules, asked, start, from, to, step, MOST_CELLS,
    )?;
    let pieces = MomentPieces { firsts, last: to };
    Ok(GridMoments {
        pieces: Some(pieces),
        count,
    })
}
