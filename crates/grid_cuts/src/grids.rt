//! The grid of a question over ranges.
ghost use Rattle.std.specs.Prelude.{◌≡◌, ◌≤◌, ◌*◌, IfOk, IfErr, IfSome, All, ◌≤ℤ◌};
ghost use Rattle.rule_types.specs.WellFormed.{WellFormed};
ghost use Rattle.verdict_meaning.specs.Boxes.{IsPrepared, first_box};
ghost use Rattle.verdict_meaning.specs.FitRanges.{AreEnds, RangesFit};
ghost use Rattle.verdict_meaning.specs.Grids.{cell_count};
ghost use Rattle.verdict_meaning.specs.Premises.{start_of};
ghost use Rattle.verdict_meaning.specs.Verdicts.{most_cells};
ghost use Rattle.grid_blocks.specs.GridsOf.{HasFewPieces, IsGridOf};
ghost use Rattle.grid_cuts.specs.Ends.{IsGridEnd};
ghost use Rattle.grid_cuts.specs.internal.Gridded.{EndsAt, IsGridIn, IsPut, cells_in};
ghost use Rattle.grid_cuts.specs.internal.Gridded.{piece_product};

use crate::asked::asked_numbers;
use crate::counting::{MOST_CELLS, cell_count};
use crate::end::GridEnd;
use crate::key_cuts::axes_of;
use crate::moments::{GridMoments, moments_of};
use byte_edge::NoMemory;
use exact_fraction::moment::Moment;
use grid_blocks::{Grid, KeyCuts};
use list_types::Items;
use question_boxes::first_box;
use rule_types::Rules;
use std::alloc::Global;
use verdict_meaning::{Cell, Question, Ranges};

/// The grid of a question over ranges, or TooManyCells with their count exactly where it has more
/// than 1,048,576 cells. The only other error is NoMemory. It takes time by the number of keys times
/// that of the ranges and of the conditions of the question's rules, by the pieces of the moments,
/// and by the cuts times their logarithm.
pub fn grid_of(
    alloc: Global,
    rules: &Rules,
    question: &Question,
    ranges: &Ranges,
) -> Result<Grid, GridEnd>
    requires rules { WellFormed rules.now }
    requires prepared { IsPrepared rules.now ranges.now }
    requires ranges { RangesFit rules.now ranges.now }
    ensures grid { IfOk result (IsGridOf rules.now question.now
        (first_box rules.now question.now ranges.now)) }
    ensures few { IfOk result (λ grid.
        cell_count rules.now question.now ranges.now ≤ most_cells) }
    ensures short { IfOk result HasFewPieces }
    ensures end { IfErr result (IsGridEnd rules.now ranges.now question.now) }
{
    let cell = first_box(alloc, rules, question, ranges)?;
    grid_in(alloc, rules, question, &cell, ranges.start)
}

/// The grid of a question in a box.
fn grid_in(
    alloc: Global,
    rules: &Rules,
    question: &Question,
    cell: &Cell,
    start: Moment,
) -> Result<Grid, GridEnd>
    requires rules { WellFormed rules.now }
    requires start { start_of rules.now ≡ start }
    requires ends { All (λ entry. AreEnds entry.1.low entry.1.high) cell.now.keys }
    requires moments { IfSome cell.now.moments (λ span. span.0 ≤ℤ span.1) }
    ensures grid { IfOk result (IsGridIn rules.now question.now cell.now) }
    ensures end { IfErr result (EndsAt (cells_in rules.now question.now cell.now)) }
{
    let asked = asked_numbers(alloc, rules, question)?;
    let axes = axes_of(
        alloc,
        rules,
        question,
        asked.as_slice(),
        cell.keys.as_slice(),
    )?;
    let moments = moments_of(alloc, rules, asked.as_slice(), &cell.moments, start)?;
    put_together(axes, moments)
}

/// The grid of axes and moments, unless it has too many cells.
fn put_together(axes: Vec<KeyCuts>, moments: GridMoments) -> Result<Grid, GridEnd>
    ensures grid { IfOk result (IsPut axes.items moments) }
    ensures end { IfErr result (EndsAt (piece_product axes.items * moments.count)) }
{
    let count = cell_count(axes.as_slice(), moments.count);
    if MOST_CELLS < count {
        return Err(GridEnd::TooManyCells(count));
    }
    Ok(Grid {
        keys: Items::from_vec(axes),
        moments: moments.pieces,
    })
}
