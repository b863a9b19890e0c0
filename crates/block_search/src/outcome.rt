//! What a search finds.
ghost use Rattle.std.specs.Prelude.{◌≡◌, IfOk};
ghost use Rattle.block_search.specs.Outcomes.{is_event, joined, open_joined, third_alone, tree_of};

use crate::tree::Tree;
use byte_edge::NoMemory;
use list_types::{Boxed, Items};
use std::alloc::Global;

/// What is found in a block.
#[derive(Debug, Drop)]
pub enum Outcome {
    /// No cell has the event, as this tree shows.
    Proved(Tree),
    /// This is the first cell with the event.
    Event(Items<u32>),
    /// No cell has the event, and some cell is not shown.
    Open,
}

/// Whether a cell with the event was found.
pub(crate) fn is_event(outcome: &Outcome) -> bool
    ensures value { result ≡ is_event outcome.now }
{
    match outcome {
        Outcome::Proved(_) => false,
        Outcome::Event(_) => true,
        Outcome::Open => false,
    }
}

/// What is found in three parts of a block in a row, where an axis is cut. NoMemory is the only
/// error.
pub(crate) fn joined(
    alloc: Global,
    of_moments: bool,
    axis: usize,
    at: u32,
    first: Outcome,
    second: Outcome,
    third: Outcome,
) -> Result<Outcome, NoMemory>
    ensures value { IfOk result (λ outcome.
        outcome ≡ joined of_moments axis at first second third) }
{
    match first {
        Outcome::Event(cell) => Ok(Outcome::Event(cell)),
        Outcome::Open => Ok(open_joined(second, third)),
        Outcome::Proved(below) => match second {
            Outcome::Event(cell) => Ok(Outcome::Event(cell)),
            Outcome::Open => Ok(third_alone(third)),
            Outcome::Proved(middle) => match third {
                Outcome::Event(cell) => Ok(Outcome::Event(cell)),
                Outcome::Open => Ok(Outcome::Open),
                Outcome::Proved(above) => {
                    let tree = made(alloc, of_moments, axis, at, below, middle, above)?;
                    Ok(Outcome::Proved(tree))
                }
            },
        },
    }
}

/// What is found where some cell of the first part is not shown.
fn open_joined(second: Outcome, third: Outcome) -> Outcome
    ensures value { result ≡ open_joined second third }
{
    match second {
        Outcome::Event(cell) => Outcome::Event(cell),
        Outcome::Open => third_alone(third),
        Outcome::Proved(_) => third_alone(third),
    }
}

/// What is found where some cell of the parts before is not shown.
fn third_alone(third: Outcome) -> Outcome
    ensures value { result ≡ third_alone third }
{
    match third {
        Outcome::Event(cell) => Outcome::Event(cell),
        Outcome::Open => Outcome::Open,
        Outcome::Proved(_) => Outcome::Open,
    }
}

/// The tree of a cut. NoMemory is the only error.
fn made(
    alloc: Global,
    of_moments: bool,
    axis: usize,
    at: u32,
    below: Tree,
    middle: Tree,
    above: Tree,
) -> Result<Tree, NoMemory>
    ensures value { IfOk result (λ tree.
        tree ≡ tree_of of_moments axis at below middle above) }
{
    let below = Boxed::new(alloc, below)?;
    let above = Boxed::new(alloc, above)?;
    if of_moments {
        return Ok(Tree::Before(axis, at, below, above));
    }
    let middle = Boxed::new(alloc, middle)?;
    Ok(Tree::Split(axis, at, below, middle, above))
}
