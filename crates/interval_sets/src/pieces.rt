//! The pieces of sets.
ghost use Rattle.std.specs.Prelude.{◌≡◌, [], ◌∷◌, true, false, IfOk};
ghost use Rattle.exact_fraction.specs.Number.{Rational};
ghost use Rattle.interval_sets.specs.Sets.{members, IsNormal, set_of};
ghost use Rattle.interval_sets.specs.internal.Edges.{in_combination, edges_of, Rises, oddly_many};

use crate::combination::Combination;
use crate::edge::Edge;
use crate::interval::{Bound, Interval};
use crate::merge::merge_edges;
use byte_edge::NoMemory;
use exact_fraction::frac::Frac;
use exact_fraction::relation::Relation;
use std::alloc::Global;

/// The pieces of the combination `how` of two sets.
pub(crate) fn combine(
    alloc: Global,
    how: Combination,
    left: &[Interval],
    right: &[Interval],
) -> Result<Vec<Interval>, NoMemory>
    requires left_normal { IsNormal left.now }
    requires right_normal { IsNormal right.now }
    ensures members { IfOk result (λ pieces. (q : Rational) →
        members pieces.items q ≡ in_combination how (members left.now q) (members right.now q)) }
    ensures normal { IfOk result (λ pieces. IsNormal pieces.items) }
{
    let left_edges = edges_of(alloc, left)?;
    let right_edges = edges_of(alloc, right)?;
    let edges = merge_edges(alloc, how, &left_edges, &right_edges)?;
    let pieces = pieces_of(alloc, &edges)?;
    Ok(pieces)
}

/// The edges of pieces, in their order.
fn edges_of(alloc: Global, pieces: &[Interval]) -> Result<Vec<Edge>, NoMemory>
    ensures value { IfOk result (λ edges. edges.items ≡ edges_of pieces.now) }
{
    let mut edges = Vec::new(alloc);
    for piece in pieces {
        edges.push(Edge::of_low(&piece.low))?;
        edges.push(Edge::of_high(&piece.high))?;
    }
    Ok(edges)
}

/// The pieces that have these edges.
fn pieces_of(alloc: Global, edges: &[Edge]) -> Result<Vec<Interval>, NoMemory>
    requires rising { Rises edges.now }
    requires even { oddly_many (λ _. true) edges.now ≡ false }
    ensures edges { IfOk result (λ pieces. edges_of pieces.items ≡ edges.now) }
{
    let mut pieces = Vec::new(alloc);
    let mut rest = edges;
    'pairing: while let Some((low, later)) = rest.split_first() {
        let Some((high, after)) = later.split_first() else {
            return Ok(pieces);
        };
        pieces.push(Interval {
            low: low.low_end(),
            high: high.high_end(),
        })?;
        rest = after;
    }
    Ok(pieces)
}

/// The pieces of the numbers that stand in a relation to `c`.
#[tactic(auto, unfolding(crate::specs::Sets::set_of))]
pub(crate) fn pieces_of_relation(
    alloc: Global,
    rel: Relation,
    c: Frac,
) -> Result<Vec<Interval>, NoMemory>
    ensures value { IfOk result (λ pieces. pieces.items ≡ set_of rel c) }
{
    match rel {
        Relation::Eq => one_piece(alloc, Bound::Bound(c, false), Bound::Bound(c, false)),
        Relation::Ne => all_but(alloc, c),
        Relation::Lt => one_piece(alloc, Bound::NoBound, Bound::Bound(c, true)),
        Relation::Le => one_piece(alloc, Bound::NoBound, Bound::Bound(c, false)),
        Relation::Gt => one_piece(alloc, Bound::Bound(c, true), Bound::NoBound),
        Relation::Ge => one_piece(alloc, Bound::Bound(c, false), Bound::NoBound),
    }
}

/// One interval.
fn one_piece(alloc: Global, low: Bound, high: Bound) -> Result<Vec<Interval>, NoMemory>
    ensures value { IfOk result (λ pieces. pieces.items ≡ record { low = low; high = high } ∷ []) }
{
    let mut pieces = Vec::new(alloc);
    pieces.push(Interval { low, high })?;
    Ok(pieces)
}

/// The interval below `c` and that above it.
fn all_but(alloc: Global, c: Frac) -> Result<Vec<Interval>, NoMemory>
    ensures value { IfOk result (λ pieces. pieces.items
        ≡ record { low = Bound.NoBound; high = Bound.Bound c true }
        ∷ record { low = Bound.Bound c true; high = Bound.NoBound } ∷ []) }
{
    let mut pieces = Vec::new(alloc);
    pieces.push(Interval {
        low: Bound::NoBound,
        high: Bound::Bound(c, true),
    })?;
    pieces.push(Interval {
        low: Bound::Bound(c, true),
        high: Bound::NoBound,
    })?;
    Ok(pieces)
}
