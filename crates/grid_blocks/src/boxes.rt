//! Boxes of blocks of a grid.
ghost use Rattle.std.specs.Prelude.{◌≡◌, ◌<◌, ◌<ℤ◌, ◌≤◌, ◌-ℤ◌, ◌^◌, false, length, map, pos};
ghost use Rattle.std.specs.Prelude.{slice_get, All, IfOk, IfSome};
ghost use Rattle.std.specs.List.{list_any};
ghost use Rattle.block_search.specs.Blocks.{IsWithin, is_none};
ghost use Rattle.grid_blocks.specs.GridBoxes.{box_of, cut_at, end_before, first_moment};
ghost use Rattle.grid_blocks.specs.GridBoxes.{interval_of, keys_of, lengths, moments_in};
ghost use Rattle.grid_blocks.specs.GridBoxes.{piece_count};
ghost use Rattle.grid_blocks.specs.GridOrder.{AreFirstsTo, IsInOrder};
ghost use Rattle.grid_blocks.specs.GridsOf.{HasFewPieces};

use crate::grid::{Grid, KeyCuts, MomentPieces};
use block_search::Span;
use byte_edge::NoMemory;
use exact_fraction::frac::Frac;
use exact_fraction::moment::Moment;
use interval_sets::{Bound, Interval};
use list_types::Items;
use rule_types::Key;
use std::alloc::Global;
use verdict_meaning::Cell;

impl Grid {
    /// The number of pieces of each axis. NoMemory is the only error.
    #[tactic(auto, unfolding(crate::specs::GridBoxes::lengths))]
    pub fn lengths(&self, alloc: Global) -> Result<Vec<u32>, NoMemory>
        requires few { HasFewPieces self.now }
        ensures value { IfOk result (λ list. list.items ≡ lengths self.now) }
    {
        let mut counts = key_counts(alloc, self.keys.as_slice())?;
        if let Some(pieces) = &self.moments {
            counts.push(moment_pieces(pieces))?;
        }
        Ok(counts)
    }

    /// The box of a block that has a cell: of each key the interval of a run of its pieces. It
    /// takes memory by the number of keys. NoMemory is the only error.
    pub fn box_of(&self, alloc: Global, block: &[Span]) -> Result<Cell, NoMemory>
        requires order { IsInOrder self.now }
        requires within { IsWithin (lengths self.now) block.now }
        requires some { list_any is_none block.now ≡ false }
        ensures value { IfOk result (λ cell. cell ≡ box_of self.now block.now) }
    {
        let keys = Items::from_vec(entries(alloc, self.keys.as_slice(), block)?);
        match &self.moments {
            Some(pieces) => {
                let moments = moments_in(pieces, block[self.keys.len()]);
                Ok(Cell {
                    keys,
                    moments: Some(moments),
                })
            }
            None => Ok(Cell {
                keys,
                moments: None,
            }),
        }
    }
}

/// The number of pieces of each key. NoMemory is the only error.
fn key_counts(alloc: Global, axes: &[KeyCuts]) -> Result<Vec<u32>, NoMemory>
    requires few { All (λ axis. piece_count axis.cuts < 2 ^ 32) axes.now }
    ensures value { IfOk result (λ counts.
        counts.items ≡ map (λ axis. piece_count axis.cuts) axes.now) }
{
    let mut counts = Vec::new(alloc);
    for axis in axes {
        counts.push(key_pieces(axis))?;
    }
    Ok(counts)
}

/// The number of pieces of a key.
fn key_pieces(axis: &KeyCuts) -> u32
    requires few { piece_count axis.now.cuts < 2 ^ 32 }
    ensures value { result ≡ piece_count axis.now.cuts }
{
    let count = 2 * axis.cuts.len();
    count.saturating_sub(1) as u32
}

/// The number of pieces of moments.
fn moment_pieces(pieces: &MomentPieces) -> u32
    requires few { length pieces.now.firsts < 2 ^ 32 }
    ensures value { result ≡ length pieces.now.firsts }
{
    pieces.firsts.len() as u32
}

/// Each key with the interval of its run. NoMemory is the only error.
fn entries(
    alloc: Global,
    axes: &[KeyCuts],
    block: &[Span],
) -> Result<Vec<(Key, Interval)>, NoMemory>
    requires enough { length axes.now ≤ length block.now }
    ensures value { IfOk result (λ entries. entries.items ≡ keys_of axes.now block.now) }
{
    let mut entries = Vec::new(alloc);
    for (number, axis) in axes.iter().enumerate() {
        entries.push((axis.key, interval(axis, block[number])))?;
    }
    Ok(entries)
}

/// The interval of a run of pieces.
#[tactic(auto, unfolding(crate::specs::GridBoxes::interval_of))]
fn interval(axis: &KeyCuts, span: Span) -> Interval
    ensures value { result ≡ interval_of axis.now.cuts span }
{
    Interval {
        low: Bound::Bound(cut_at(axis, span.low), span.low % 2 == 1),
        high: Bound::Bound(cut_at(axis, span.high), span.high % 2 == 0),
    }
}

/// The cut of a piece, or 0 past the last one.
fn cut_at(axis: &KeyCuts, piece: u32) -> Frac
    ensures value { result ≡ cut_at axis.now.cuts piece }
{
    match axis.cuts.get((piece / 2) as usize) {
        Some(cut) => *cut,
        None => Frac::zero(),
    }
}

/// The first and the last moment of a run of pieces.
fn moments_in(pieces: &MomentPieces, span: Span) -> (Moment, Moment)
    requires order { AreFirstsTo pieces.now.last pieces.now.firsts }
    requires some { span.low < span.high }
    ensures value { result ≡ moments_in pieces.now span }
{
    let first = first_moment(pieces, span.low);
    let last = end_before(pieces, span.high, first);
    (first, last)
}

/// The first moment of a piece, or the last moment of all past the last piece.
fn first_moment(pieces: &MomentPieces, piece: u32) -> Moment
    ensures value { result ≡ first_moment pieces.now piece }
{
    match pieces.firsts.get(piece as usize) {
        Some(first) => *first,
        None => pieces.last,
    }
}

/// The last moment before a piece that begins after another moment, or the last moment of all past
/// the last piece.
fn end_before(pieces: &MomentPieces, piece: u32, earlier: Moment) -> Moment
    requires later { IfSome (slice_get pieces.now.firsts piece) (λ next. earlier <ℤ next) }
    ensures value { result ≡ end_before pieces.now (slice_get pieces.now.firsts piece) }
{
    match pieces.firsts.get(piece as usize) {
        Some(next) => second_before(*next, earlier),
        None => pieces.last,
    }
}

/// The second before a moment that is later than another one.
fn second_before(moment: Moment, earlier: Moment) -> Moment
    requires later { earlier <ℤ moment }
    ensures value { result ≡ moment -ℤ pos 1 }
{
    let _earlier = earlier.seconds();
    let Some(before) = Moment::make(moment.seconds() - 1) else {
        unreachable!();
    };
    before
}
