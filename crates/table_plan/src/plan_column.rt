//! The columns of a plan.
ghost use Rattle.std.specs.Prelude.{◌≡◌, ◌<◌, ◌+◌, ◌^◌};
ghost use Rattle.table_plan.specs.Pieces.{piece};

use crate::piece_search::piece_among;
use exact_fraction::frac::Frac;
use interval_sets::CutList;
use rule_types::Side;
use std::marker::Brand;
use std::sync::ledger::Blank;

/// A column of a plan: what it reads, and its cuts, which are the ends of all sets that the tables
/// have for it.
#[derive(Drop)]
pub struct PlanColumn {
    pub side: Side,
    pub cuts: CutList<Brand>,
}

impl PlanColumn {
    /// The piece of a value among the cuts of the column. It takes no memory, and time by the
    /// logarithm of their number.
    pub fn piece(&self, value: Frac) -> usize
        ensures value { result ≡ piece self.now.cuts value }
        ensures small { result + 1 < 2 ^ 64 }
    {
        piece_among::<Brand>(Blank::new(1), &self.cuts, value)
    }
}
