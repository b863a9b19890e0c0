//! The first cell that is not shown.
ghost use Rattle.std.specs.Prelude.{◌≡◌, IfOk, false, None};
ghost use Rattle.std.specs.List.{find, list_any};
ghost use Rattle.block_search.specs.Blocks.{IsWithin, cells, is_none, wide_from};
ghost use Rattle.block_search.specs.Judgements.{is_open};

use crate::block::{has_none, lows, part, span_at, wide_axis};
use crate::cut::middle;
use crate::span::Span;
use crate::task::Task;
use byte_edge::NoMemory;
use list_types::Items;
use std::alloc::Global;

/// The first cell of a block that is not shown, if there is one. Each cell before it is asked about
/// once. NoMemory is the only error.
pub fn first_open<T: Task>(
    alloc: Global,
    task: &T,
    block: &[Span],
) -> Result<Option<Items<u32>>, NoMemory>
    requires ready { T.is_ready task.now }
    requires within { IsWithin (T.judged task.now).axes block.now }
    ensures first { IfOk result (λ cell.
        cell ≡ find (is_open (T.judged task.now)) (cells block.now)) }
{
    if has_none(block) {
        return Ok(None);
    }
    let Some(axis) = wide_axis(block) else {
        return one_open(alloc, task, block);
    };
    let span = span_at(block, axis);
    let of_moments = task.has_moments(axis);
    let cut = middle(span, of_moments);
    let below = part(alloc, block, axis, span.low, cut.at)?;
    let first = first_open(alloc, task, &below)?;
    if first.is_some() {
        return Ok(first);
    }
    let inner = part(alloc, block, axis, cut.at, cut.from)?;
    let second = first_open(alloc, task, &inner)?;
    if second.is_some() {
        return Ok(second);
    }
    let above = part(alloc, block, axis, cut.from, span.high)?;
    first_open(alloc, task, &above)
}

/// The cell of a block of one cell, unless it is shown.
fn one_open<T: Task>(
    alloc: Global,
    task: &T,
    block: &[Span],
) -> Result<Option<Items<u32>>, NoMemory>
    requires ready { T.is_ready task.now }
    requires within { IsWithin (T.judged task.now).axes block.now }
    requires some { list_any is_none block.now ≡ false }
    requires one { wide_from 0 block.now ≡ None }
    ensures first { IfOk result (λ cell.
        cell ≡ find (is_open (T.judged task.now)) (cells block.now)) }
{
    let shown = task.is_shown(alloc, block)?;
    if shown {
        return Ok(None);
    }
    let cell = lows(alloc, block)?;
    Ok(Some(Items::from_vec(cell)))
}
