//! Lists of cuts.
ghost use Rattle.std.specs.Prelude.{◌≡◌, ◌<◌, ◌+◌, ◌-◌, ◌^◌, length, IfSome, slice_get};
ghost use Rattle.exact_fraction.specs.Order.{compares};
ghost use Rattle.interval_sets.specs.Cuts.{IsRising};

use crate::steps::Steps;
use exact_fraction::frac::Frac;
use std::cmp::Ordering;
use std::marker::{Model, PhantomData};
use std::sync::ledger::Ledger;

/// Numbers that rise strictly, and that nothing but `probe` can look at. A look is a step of a
/// counter of the list's own ledger `L`, so that code over every `L` cannot look at a cut by
/// another counter than the one that it was given.
#[derive(Drop)]
pub struct CutList<L> {
    cuts: Vec<Frac>,
    counted_by: PhantomData<L>,
}

impl<L> Model for CutList<L> {
    ghost use Rattle.std.specs.Prelude.{List};
    ghost use Rattle.exact_fraction.specs.Number.{Rational};
    ghost use Rattle.interval_sets.specs.Cuts.{IsRising};

    ghost Value = { List Rational };

    ghost view = { λ c. c.cuts.items };

    ghost invariant = { λ c. IsRising c.cuts.items };
}

impl<L> CutList<L> {
    /// The list of these cuts, with their memory.
    pub fn new(cuts: Vec<Frac>) -> CutList<L>
        requires rising { IsRising cuts.items }
        ensures value { result ≡ cuts.items }
    {
        CutList {
            cuts,
            counted_by: PhantomData,
        }
    }

    /// The number of cuts.
    pub fn count(&self) -> usize
        ensures value { result ≡ length self.now }
        ensures small { result < 2 ^ 63 }
        ensures rising { IsRising self.now }
    {
        self.cuts.len()
    }
}

impl<L: Ledger> CutList<L> {
    /// How `x` stands to cut `k`, counted from 0: one step.
    pub fn probe(&self, k: usize, x: Frac, steps: &mut Steps<L>) -> Ordering
        requires within { k < length self.now }
        requires room { steps.old < 2 ^ 64 - 1 }
        ensures order { IfSome (slice_get self.now k) (λ cut. result ≡ compares x cut) }
        ensures step { steps.new ≡ steps.old + 1 }
    {
        steps.count();
        x.cmp(&self.cuts[k])
    }
}
