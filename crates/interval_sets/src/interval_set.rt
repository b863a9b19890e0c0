//! Sets of numbers.
ghost use Rattle.std.specs.Prelude.{◌≡◌, ◌↔◌, ◌&&◌, ◌||◌, not, false, IsTrue, IfOk};
ghost use Rattle.exact_fraction.specs.Number.{Rational};
ghost use Rattle.exact_fraction.specs.Relations.{relates};
ghost use Rattle.interval_sets.specs.Sets.{members, IsNormal};
ghost use Rattle.interval_sets.specs.Sets.{set_of, union_of, intersection_of, complement_of};

use crate::combination::Combination;
use crate::interval::{Bound, Interval};
use crate::pieces::{combine, pieces_of_relation};
use byte_edge::NoMemory;
use exact_fraction::frac::Frac;
use exact_fraction::relation::Relation;
use std::alloc::{AllocError, Global};
use std::marker::Model;

/// A set of fractions, kept as the intervals that make it up, in normal form: they are not empty
/// and rise, and no two of them together are one interval.
///
/// Its members are among all fractions, also those that a number cannot hold.
#[derive(Debug, Drop)]
pub struct IntervalSet {
    pieces: Vec<Interval>,
}

impl Model for IntervalSet {
    ghost use Rattle.std.specs.Prelude.{List};
    ghost use Rattle.interval_sets.specs.declared.interval.Interval.{Interval};
    ghost use Rattle.interval_sets.specs.Sets.{IsNormal};

    ghost Value = { List Interval };

    ghost view = { λ s. s.pieces.items };

    ghost invariant = { λ s. IsNormal s.pieces.items };
}

impl IntervalSet {
    /// The numbers that stand in the relation to `c`: NoMemory is the one error.
    pub fn of(alloc: Global, rel: Relation, c: Frac) -> Result<IntervalSet, NoMemory>
        ensures value { IfOk result (λ set. set ≡ set_of rel c) }
        ensures members { IfOk result (λ set. (q : Rational) → members set q ≡ relates rel q c) }
        ensures normal { IfOk result (λ set. IsNormal set) }
    {
        // The parts of a number are in lowest terms, by which equal sets have the same pieces.
        let _denominator = c.den();
        Ok(IntervalSet {
            pieces: pieces_of_relation(alloc, rel, c)?,
        })
    }

    /// The members of either set, in time that grows with the number of pieces: NoMemory is the one
    /// error.
    pub fn union(&self, alloc: Global, o: &IntervalSet) -> Result<IntervalSet, NoMemory>
        ensures value { IfOk result (λ set. set ≡ union_of self.now o.now) }
        ensures members { IfOk result (λ set. (q : Rational) →
            members set q ≡ (members self.now q || members o.now q)) }
        ensures normal { IfOk result (λ set. IsNormal set) }
    {
        Ok(IntervalSet {
            pieces: combine(alloc, Combination::Union, &self.pieces, &o.pieces)?,
        })
    }

    /// The members of both sets, in time that grows with the number of pieces: NoMemory is the one
    /// error.
    pub fn meet(&self, alloc: Global, o: &IntervalSet) -> Result<IntervalSet, NoMemory>
        ensures value { IfOk result (λ set. set ≡ intersection_of self.now o.now) }
        ensures members { IfOk result (λ set. (q : Rational) →
            members set q ≡ (members self.now q && members o.now q)) }
        ensures normal { IfOk result (λ set. IsNormal set) }
    {
        Ok(IntervalSet {
            pieces: combine(alloc, Combination::Meet, &self.pieces, &o.pieces)?,
        })
    }

    /// The fractions that are no members, in time that grows with the number of pieces: NoMemory is
    /// the one error.
    pub fn complement(&self, alloc: Global) -> Result<IntervalSet, NoMemory>
        ensures value { IfOk result (λ set. set ≡ complement_of self.now) }
        ensures members { IfOk result (λ set. (q : Rational) →
            members set q ≡ not (members self.now q)) }
        ensures normal { IfOk result (λ set. IsNormal set) }
    {
        let all = [Interval {
            low: Bound::NoBound,
            high: Bound::NoBound,
        }];
        Ok(IntervalSet {
            pieces: combine(alloc, Combination::Difference, &all, &self.pieces)?,
        })
    }

    /// Whether a number is a member, in time that grows with the number of pieces.
    pub fn holds(&self, x: Frac) -> bool
        ensures value { result ≡ members self.now x }
    {
        self.pieces.iter().any(|piece| piece.holds(&x))
    }

    /// Whether no fraction is a member.
    pub fn is_empty(&self) -> bool
        ensures value { IsTrue result ↔ ((q : Rational) → members self.now q ≡ false) }
    {
        self.pieces().is_empty()
    }

    /// The intervals that make up the set, in normal form.
    pub fn pieces(&self) -> &[Interval]
        ensures value { result.now ≡ self.now }
        ensures normal { IsNormal self.now }
    {
        self.pieces.as_slice()
    }
}

/// A copy takes memory, and is the same set.
impl Clone for IntervalSet {
    ghost is_clone = { λ set copy. copy ≡ set };

    fn clone(&self) -> Result<IntervalSet, AllocError> {
        let pieces = self.pieces.clone()?;
        Ok(IntervalSet { pieces })
    }
}

/// Two sets are equal exactly where they have the same members among all fractions, and then they
/// have the same pieces.
impl PartialEq for IntervalSet {
    ghost use Rattle.std.specs.Cmp.Lexicographic.{pointwise, lists_per};
    ghost use Rattle.interval_sets.specs.contracts.interval.IntervalPartialEq.TheImpl as IntervalEq;
    ghost use Rattle.interval_sets.specs.contracts.interval.IntervalPartialEq.TheImpl.Laws.{laws-law};

    ghost eq = { λ set other. pointwise IntervalEq.eq-value.it set other };

    ghost laws = { lists_per laws-law };

    fn eq(&self, other: &Self) -> bool
        ensures same_members { IsTrue result
            ↔ ((q : Rational) → members self.now q ≡ members other.now q) }
        ensures same_pieces { IsTrue result ↔ (self.now ≡ other.now) }
        ensures tested { result ≡ pointwise IntervalEq.eq-value.it self.now other.now }
    {
        self.pieces == other.pieces
    }
}

impl Eq for IntervalSet {
    ghost use Rattle.std.specs.Cmp.Lexicographic.{lists_equiv};
    ghost use Rattle.interval_sets.specs.contracts.interval.IntervalEq.TheImpl.Laws.{laws-law};

    ghost laws = { lists_equiv laws-law };
}
