//! The search of a block.
ghost use Rattle.std.specs.Prelude.{◌≡◌, IfOk, false, None};
ghost use Rattle.std.specs.List.{list_any};
ghost use Rattle.block_search.specs.Blocks.{IsWithin, is_none, wide_from};
ghost use Rattle.block_search.specs.Outcomes.{IsFound};

use crate::block::{has_none, lows, part, span_at, wide_axis};
use crate::cut::middle;
use crate::outcome::{Outcome, is_event, joined};
use crate::span::Span;
use crate::task::Task;
use crate::tree::Tree;
use byte_edge::NoMemory;
use list_types::Items;
use std::alloc::Global;

/// What is found in a block: a tree that shows that no cell has the event, the first cell with the
/// event, or that no cell has it and some cell is not shown. A block that is shown as a whole is not
/// searched; else the first axis of more than one piece is cut in its middle, so that a block of n
/// cells needs at most three questions for each, and its tree is about log n to the base 3/2 deep.
/// NoMemory is the only error.
pub fn search_block<T: Task>(alloc: Global, task: &T, block: &[Span]) -> Result<Outcome, NoMemory>
    requires ready { T.is_ready task.now }
    requires within { IsWithin (T.judged task.now).axes block.now }
    ensures found { IfOk result (IsFound (T.judged task.now) block.now) }
{
    if has_none(block) {
        return Ok(Outcome::Proved(Tree::Leaf(Items::new(alloc))));
    }
    let shown = task.is_shown(alloc, block)?;
    if shown {
        let facts = task.reason(alloc, block)?;
        return Ok(Outcome::Proved(Tree::Leaf(facts)));
    }
    let Some(axis) = wide_axis(block) else {
        return one_cell(alloc, task, block);
    };
    let span = span_at(block, axis);
    let of_moments = task.has_moments(axis);
    let cut = middle(span, of_moments);
    let below = part(alloc, block, axis, span.low, cut.at)?;
    let first = search_block(alloc, task, &below)?;
    if is_event(&first) {
        return Ok(first);
    }
    let inner = part(alloc, block, axis, cut.at, cut.from)?;
    let second = search_block(alloc, task, &inner)?;
    if is_event(&second) {
        return Ok(second);
    }
    let above = part(alloc, block, axis, cut.from, span.high)?;
    let third = search_block(alloc, task, &above)?;
    joined(alloc, of_moments, axis, cut.at, first, second, third)
}

/// What is found in a block of one cell that is not shown.
fn one_cell<T: Task>(alloc: Global, task: &T, block: &[Span]) -> Result<Outcome, NoMemory>
    requires ready { T.is_ready task.now }
    requires within { IsWithin (T.judged task.now).axes block.now }
    requires some { list_any is_none block.now ≡ false }
    requires one { wide_from 0 block.now ≡ None }
    requires open_cell { (T.judged task.now).shown block.now ≡ false }
    ensures found { IfOk result (IsFound (T.judged task.now) block.now) }
{
    let cell = lows(alloc, block)?;
    let found = task.has_event(alloc, &cell)?;
    if found {
        return Ok(Outcome::Event(Items::from_vec(cell)));
    }
    Ok(Outcome::Open)
}
