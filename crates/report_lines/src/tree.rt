//! The trees of a report.
ghost use Rattle.std.specs.Prelude.{◌≡◌, ◌++◌, ◌∷◌, [], ℕ, List, ◌<◌, ◌^◌, length, OnOk, IfOk};
ghost use Rattle.report_lines.specs.TreeLines.{tree_from, leaf_from, split_from};
ghost use Rattle.report_lines.specs.TreeLines.{before_from, node_at};
ghost use Rattle.report_lines.specs.internal.Views.{tree_now};

use crate::body::Body;
use crate::fact::read_facts;
use crate::line::{next_place, text_at};
use crate::node::{NodeLine, node_line};
use byte_edge::NoMemory;
use exact_fraction::frac::Frac;
use exact_fraction::moment::Moment;
use list_types::Boxed;
use rule_types::Key;
use std::alloc::Global;
use verdict_meaning::{Cert, Reason};

/// The tree from a line on, of at most so many levels, with the place of the line behind it; or the
/// place of the first line at fault. The places of the lines of its nodes go behind others. It goes
/// down one call a level.
#[cycle(tree)]
#[tactic(auto, unfolding(crate::specs::TreeLines::tree_from))]
pub(crate) fn read_tree(
    alloc: Global,
    body: Body<'_>,
    levels: u32,
    at: usize,
    places: &mut Vec<u64>,
) -> Result<Result<(Cert, usize), usize>, NoMemory>
    requires few { length body.grid.now.asked < 2 ^ 32 }
    ensures { IfOk result (λ read. tree_now read places.new.items
        ≡ tree_from body.entry.lines.now body.entry.objects.now body.entry.grid.now
        body.entry.facts levels at places.old.items) }
{
    if levels == 0 {
        return Ok(Err(at));
    }
    let Some(node) = read_node(alloc, body, at)? else {
        return Ok(Err(at));
    };
    push_place(places, at)?;
    let next = next_place(at)?;
    match node {
        NodeLine::Leaf => read_leaf(alloc, body, next),
        NodeLine::Split(key, number) => {
            read_split(alloc, body, levels - 1, key, number, next, places)
        }
        NodeLine::Before(moment) => read_before(alloc, body, levels - 1, moment, next, places),
    }
}

/// The three trees of a split at a number, from a line on.
#[cycle(tree)]
fn read_split(
    alloc: Global,
    body: Body<'_>,
    levels: u32,
    key: Key,
    number: Frac,
    at: usize,
    places: &mut Vec<u64>,
) -> Result<Result<(Cert, usize), usize>, NoMemory>
    requires few { length body.grid.now.asked < 2 ^ 32 }
    ensures { IfOk result (λ read. tree_now read places.new.items
        ≡ split_from (tree_from body.entry.lines.now body.entry.objects.now body.entry.grid.now
        body.entry.facts levels) key number at places.old.items) }
{
    let (below, next) = match read_tree(alloc, body, levels, at, places)? {
        Ok(read) => read,
        Err(fault) => return Ok(Err(fault)),
    };
    let (middle, last) = match read_tree(alloc, body, levels, next, places)? {
        Ok(read) => read,
        Err(fault) => return Ok(Err(fault)),
    };
    let (above, rest) = match read_tree(alloc, body, levels, last, places)? {
        Ok(read) => read,
        Err(fault) => return Ok(Err(fault)),
    };
    let below = Boxed::new(alloc, below)?;
    let middle = Boxed::new(alloc, middle)?;
    let above = Boxed::new(alloc, above)?;
    Ok(Ok((Cert::Split(key, number, below, middle, above), rest)))
}

/// The two trees of a split at a moment, from a line on.
#[cycle(tree)]
fn read_before(
    alloc: Global,
    body: Body<'_>,
    levels: u32,
    moment: Moment,
    at: usize,
    places: &mut Vec<u64>,
) -> Result<Result<(Cert, usize), usize>, NoMemory>
    requires few { length body.grid.now.asked < 2 ^ 32 }
    ensures { IfOk result (λ read. tree_now read places.new.items
        ≡ before_from (tree_from body.entry.lines.now body.entry.objects.now body.entry.grid.now
        body.entry.facts levels) moment at places.old.items) }
{
    let (before, next) = match read_tree(alloc, body, levels, at, places)? {
        Ok(read) => read,
        Err(fault) => return Ok(Err(fault)),
    };
    let (later, rest) = match read_tree(alloc, body, levels, next, places)? {
        Ok(read) => read,
        Err(fault) => return Ok(Err(fault)),
    };
    let before = Boxed::new(alloc, before)?;
    let later = Boxed::new(alloc, later)?;
    Ok(Ok((Cert::Before(moment, before, later), rest)))
}

/// A leaf, from the line behind its own on.
fn read_leaf(
    alloc: Global,
    body: Body<'_>,
    next: usize,
) -> Result<Result<(Cert, usize), usize>, NoMemory>
    requires few { length body.grid.now.asked < 2 ^ 32 }
    ensures { (places : List ℕ) → IfOk result (λ read. tree_now read places
        ≡ leaf_from body.entry.lines.now body.entry.grid.now body.entry.facts next places) }
{
    if !body.facts {
        return Ok(Ok((Cert::Leaf(Reason::Whole), next)));
    }
    match read_facts(alloc, body.lines, body.grid, next)? {
        Ok((facts, rest)) => Ok(Ok((Cert::Leaf(Reason::Facts(facts)), rest))),
        Err(fault) => Ok(Err(fault)),
    }
}

/// What the line at a place says of a node.
#[tactic(auto, unfolding(crate::specs::TreeLines::node_at))]
fn read_node(alloc: Global, body: Body<'_>, at: usize) -> Result<Option<NodeLine>, NoMemory>
    ensures { IfOk result (λ node. node
        ≡ node_at body.entry.lines.now body.entry.objects.now body.entry.grid.now at) }
{
    match text_at(body.lines, at) {
        Some(line) => node_line(alloc, body.objects, body.grid, line),
        None => Ok(None),
    }
}

/// Adds the place of a line behind others.
fn push_place(places: &mut Vec<u64>, at: usize) -> Result<(), NoMemory>
    ensures { OnOk result (places.new.items ≡ places.old.items ++ at ∷ []) }
{
    match places.push(at as u64) {
        Ok(()) => Ok(()),
        Err(_) => Err(NoMemory),
    }
}
