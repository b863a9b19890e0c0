//! Certificates of trees.
ghost use Rattle.std.specs.Prelude.{◌≡◌, ◌≤◌, IfOk, slice_get};
ghost use Rattle.block_search.specs.Trees.{depth};
ghost use Rattle.grid_blocks.specs.GridBoxes.{cut_at, first_moment};
ghost use Rattle.grid_trees.specs.TreeCertificates.{before_cert, cert_of, split_cert};

use block_search::Tree;
use byte_edge::NoMemory;
use exact_fraction::frac::Frac;
use exact_fraction::moment::Moment;
use grid_blocks::{Grid, MomentPieces};
use list_types::Boxed;
use std::alloc::Global;
use verdict_meaning::{Cert, Reason};

/// The certificate of a tree of cuts of a grid: a cut at a piece of a key's axis is a split at that
/// number on the key, a cut before a piece of moments is a split at its first moment, and each leaf
/// has its facts. The walk goes as deep as the tree, and takes memory by the number of nodes.
/// NoMemory is the only error.
pub fn cert_of(alloc: Global, grid: &Grid, tree: Tree) -> Result<Cert, NoMemory>
    requires depth { depth tree ≤ 1024 }
    ensures value { IfOk result (λ cert. cert ≡ cert_of grid.now tree) }
{
    match tree {
        Tree::Leaf(facts) => Ok(Cert::Leaf(Reason::Facts(facts))),
        Tree::Split(axis, at, below, middle, above) => {
            let below = cert_of(alloc, grid, below.into_inner())?;
            let middle = cert_of(alloc, grid, middle.into_inner())?;
            let above = cert_of(alloc, grid, above.into_inner())?;
            split(alloc, grid, axis, at, below, middle, above)
        }
        Tree::Before(_, at, before, from) => {
            let before = cert_of(alloc, grid, before.into_inner())?;
            let from = cert_of(alloc, grid, from.into_inner())?;
            split_moments(alloc, grid, at, before, from)
        }
    }
}

/// The certificate of a cut at a piece of an axis, by those of its parts. NoMemory is the only
/// error.
fn split(
    alloc: Global,
    grid: &Grid,
    axis: usize,
    at: u32,
    below: Cert,
    middle: Cert,
    above: Cert,
) -> Result<Cert, NoMemory>
    ensures value { IfOk result (λ cert.
        cert ≡ split_cert (slice_get grid.now.keys axis) at below middle above) }
{
    let Some(cuts) = grid.keys.get(axis) else {
        return Ok(below);
    };
    let key = cuts.key;
    let number = number_at(cuts.cuts.as_slice(), at);
    let below = Boxed::new(alloc, below)?;
    let middle = Boxed::new(alloc, middle)?;
    let above = Boxed::new(alloc, above)?;
    Ok(Cert::Split(key, number, below, middle, above))
}

/// The certificate of a cut before a piece of moments, by those of its parts. NoMemory is the only
/// error.
fn split_moments(
    alloc: Global,
    grid: &Grid,
    at: u32,
    before: Cert,
    from: Cert,
) -> Result<Cert, NoMemory>
    ensures value { IfOk result (λ cert. cert ≡ before_cert grid.now.moments at before from) }
{
    let Some(pieces) = &grid.moments else {
        return Ok(before);
    };
    let moment = first_at(pieces, at);
    let before = Boxed::new(alloc, before)?;
    let from = Boxed::new(alloc, from)?;
    Ok(Cert::Before(moment, before, from))
}

/// The cut that a piece of an axis is, or begins at.
fn number_at(cuts: &[Frac], piece: u32) -> Frac
    ensures value { result ≡ cut_at cuts.now piece }
{
    match cuts.get(piece as usize / 2) {
        Some(number) => *number,
        None => Frac::zero(),
    }
}

/// The first moment of a piece.
fn first_at(pieces: &MomentPieces, piece: u32) -> Moment
    ensures value { result ≡ first_moment pieces.now piece }
{
    match pieces.firsts.as_slice().get(piece as usize) {
        Some(first) => *first,
        None => pieces.last,
    }
}
