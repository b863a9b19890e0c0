//! Blocks: spans, one of each axis.
ghost use Rattle.std.specs.Prelude.{◌≡◌, ◌<◌, IfOk, map, slice_index_or, slice_set, length};
ghost use Rattle.std.specs.List.{list_any};
ghost use Rattle.block_search.specs.Blocks.{is_none, is_wide, low_of, span_from, wide_from};

use crate::span::Span;
use byte_edge::NoMemory;
use std::alloc::Global;

/// Whether a span has no piece.
pub(crate) fn is_none(span: Span) -> bool
    ensures value { result ≡ is_none span }
{
    span.high <= span.low
}

/// Whether a span has more than one piece.
pub(crate) fn is_wide(span: Span) -> bool
    ensures value { result ≡ is_wide span }
{
    span.high.saturating_sub(span.low) > 1
}

/// Whether a block has no cell.
pub(crate) fn has_none(block: &[Span]) -> bool
    ensures value { result ≡ list_any is_none block.now }
{
    for span in block {
        if is_none(*span) {
            return true;
        }
    }
    false
}

/// The first axis of more than one piece.
pub(crate) fn wide_axis(block: &[Span]) -> Option<usize>
    ensures value { result ≡ wide_from 0 block.now }
{
    for (axis, span) in block.iter().enumerate() {
        if is_wide(*span) {
            return Some(axis);
        }
    }
    None
}

/// The span of an axis.
pub(crate) fn span_at(block: &[Span], axis: usize) -> Span
    requires within { axis < length block.now }
    ensures value { result ≡ slice_index_or block.now axis (span_from 0 0) }
{
    block[axis]
}

/// The part of a block in which an axis has these pieces. NoMemory is the only error.
pub(crate) fn part(
    alloc: Global,
    block: &[Span],
    axis: usize,
    low: u32,
    high: u32,
) -> Result<Vec<Span>, NoMemory>
    requires within { axis < length block.now }
    ensures value { IfOk result (λ spans.
        spans.items ≡ slice_set block.now axis (span_from low high)) }
{
    let mut spans = Vec::new(alloc);
    spans.extend_from_slice(block)?;
    spans[axis] = Span { low, high };
    Ok(spans)
}

/// The first pieces of a block. NoMemory is the only error.
pub(crate) fn lows(alloc: Global, block: &[Span]) -> Result<Vec<u32>, NoMemory>
    ensures value { IfOk result (λ cell. cell.items ≡ map low_of block.now) }
{
    let mut cell = Vec::new(alloc);
    for span in block {
        cell.push(span.low)?;
    }
    Ok(cell)
}
