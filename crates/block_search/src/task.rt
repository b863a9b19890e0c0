//! What is asked of blocks.
ghost use Rattle.std.specs.Prelude.{◌≡◌, true, false, IfOk, None, List};
ghost use Rattle.std.specs.List.{find, list_any};
ghost use Rattle.block_search.specs.declared.span.Span.{Span as AnySpan};
ghost use Rattle.block_search.specs.Blocks.{IsWithin, block_of, cells, is_none};
ghost use Rattle.block_search.specs.Judgements.{Judgement};

use crate::span::Span;
use byte_edge::NoMemory;
use list_types::Items;
use std::alloc::Global;

/// A question over a grid: which blocks are shown to have no event, and which cells have one.
pub trait Task {
    // What is judged of blocks and cells, and how many pieces each axis has.
    ghost judged: { Self → Judgement };

    // What has to hold of the task.
    ghost is_ready: { Self → Type 0 };

    /// Whether an axis is of moments, and not of numbers: it is cut before a piece, and not around
    /// it. Of an axis of numbers each second piece, from the first on, is a point.
    fn has_moments(&self, axis: usize) -> bool
        requires ready { is_ready self.now }
        ensures value { result ≡ (judged self.now).has_moments axis };

    /// Whether a block with a cell is shown to have no cell with the event. NoMemory is the only
    /// error.
    fn is_shown(&self, alloc: Global, block: &[Span]) -> Result<bool, NoMemory>
        requires ready { is_ready self.now }
        requires within { IsWithin (judged self.now).axes block.now }
        requires some { list_any is_none block.now ≡ false }
        ensures value { IfOk result (λ shown. shown ≡ (judged self.now).shown block.now) };

    /// The reason for which a block with a cell is shown. NoMemory is the only error.
    fn reason(&self, alloc: Global, block: &[Span]) -> Result<Items<(u32, bool)>, NoMemory>
        requires ready { is_ready self.now }
        requires within { IsWithin (judged self.now).axes block.now }
        requires some { list_any is_none block.now ≡ false }
        requires shown { (judged self.now).shown block.now ≡ true }
        ensures accepted { IfOk result (λ facts.
            (judged self.now).accepts block.now facts ≡ true) };

    /// Whether a cell has the event. NoMemory is the only error.
    fn has_event(&self, alloc: Global, cell: &[u32]) -> Result<bool, NoMemory>
        requires ready { is_ready self.now }
        requires within { IsWithin (judged self.now).axes (block_of cell.now) }
        ensures value { IfOk result (λ found. found ≡ (judged self.now).event cell.now) };

    // A block that is shown has no cell with the event.
    ghost sound: { (x : Self) (block : List AnySpan) → is_ready x
        → IsWithin (judged x).axes block → (judged x).shown block ≡ true
        → find (judged x).event (cells block) ≡ None };
}
