//! The edges of combinations of sets.
ghost use Rattle.std.specs.Prelude.{◌≡◌, ◌<◌, true, ◌++◌, ◌∷◌, [], if◌then◌else◌, length};
ghost use Rattle.std.specs.Prelude.{IfOk, OnOk};
ghost use Rattle.interval_sets.specs.internal.Edges.{Rises, AreHeldEdges, IsCombination};
ghost use Rattle.interval_sets.specs.internal.Edges.{differs, rest_after};
ghost use Rattle.interval_sets.specs.internal.MergeSteps.{next_step_of, sooner_of};

use crate::combination::Combination;
use crate::edge::Edge;
use byte_edge::NoMemory;
use std::alloc::Global;

/// The first edge of two lists, and of which of them it is the first.
#[derive(Drop)]
pub(crate) struct Step {
    edge: Edge,
    from_left: bool,
    from_right: bool,
}

impl Step {
    /// The step over `edge`, which is the first of the left, of the right or of both.
    fn new(edge: Edge, from_left: bool, from_right: bool) -> Step
        ensures value { result
            ≡ record { edge = edge; from_left = from_left; from_right = from_right } }
    {
        Step {
            edge,
            from_left,
            from_right,
        }
    }
}

/// The edges of the combination `how` of two sets, in time that grows with the number of edges:
/// NoMemory is the one error.
pub(crate) fn merge_edges(
    alloc: Global,
    how: Combination,
    left: &[Edge],
    right: &[Edge],
) -> Result<Vec<Edge>, NoMemory>
    requires left_rises { Rises left.now }
    requires left_held { AreHeldEdges left.now }
    requires right_rises { Rises right.now }
    requires right_held { AreHeldEdges right.now }
    ensures combination { IfOk result (λ edges. IsCombination how left.now right.now edges.items) }
{
    let mut edges = Vec::new(alloc);
    let mut left = left;
    let mut right = right;
    let mut in_left = false;
    let mut in_right = false;
    'merging: while let Some(step) = next_step(left, right) {
        let was_inside = how.holds(in_left, in_right);
        in_left = differs(in_left, step.from_left);
        in_right = differs(in_right, step.from_right);
        let changes = differs(was_inside, how.holds(in_left, in_right));
        push_where(changes, &mut edges, step.edge)?;
        left = rest_after(step.from_left, left);
        right = rest_after(step.from_right, right);
    }
    Ok(edges)
}

/// The first edge of the two lists, if one has any.
fn next_step(left: &[Edge], right: &[Edge]) -> Option<Step>
    ensures value { result ≡ next_step_of left.now right.now }
{
    let Some((left_edge, _)) = left.split_first() else {
        let Some((right_edge, _)) = right.split_first() else {
            return None;
        };
        return Some(Step::new(*right_edge, false, true));
    };
    let Some((right_edge, _)) = right.split_first() else {
        return Some(Step::new(*left_edge, true, false));
    };
    Some(sooner(left_edge, right_edge))
}

/// The one of two edges that stands before the other, and both where neither does.
fn sooner(left: &Edge, right: &Edge) -> Step
    ensures value { result ≡ sooner_of left.now right.now }
{
    if left.stands_before(right) {
        return Step::new(*left, true, false);
    }
    if right.stands_before(left) {
        return Step::new(*right, false, true);
    }
    Step::new(*left, true, true)
}

/// The edges without the first one, where that one is taken.
fn rest_after(is_taken: bool, edges: &[Edge]) -> &[Edge]
    requires not_empty { is_taken ≡ true → 0 < length edges.now }
    ensures value { result.now ≡ rest_after is_taken edges.now }
{
    if is_taken { &edges[1..] } else { edges }
}

/// Whether two tests differ.
fn differs(left: bool, right: bool) -> bool
    ensures value { result ≡ differs left right }
{
    if left { !right } else { right }
}

/// Adds the edge where it is wanted.
fn push_where(wanted: bool, edges: &mut Vec<Edge>, edge: Edge) -> Result<(), NoMemory>
    ensures items { OnOk result (edges.new.items
        ≡ (if wanted then edges.old.items ++ edge ∷ [] else edges.old.items)) }
{
    if !wanted {
        return Ok(());
    }
    edges.push(edge)?;
    Ok(())
}
