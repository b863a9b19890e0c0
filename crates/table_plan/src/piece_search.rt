//! The piece of a number among cuts.
ghost use Rattle.std.specs.Prelude.{◌≡◌, ◌<◌, ◌≤◌, ◌+◌, ◌-◌, ◌*◌, ◌^◌, length};
ghost use Rattle.table_plan.specs.Pieces.{piece};

use exact_fraction::frac::Frac;
use interval_sets::{CutList, Steps};
use std::cmp::Ordering;
use std::sync::ledger::{Blank, Ledger};

/// The piece of `x` among cuts: twice the number of cuts below it, and one more where it is a cut.
/// Of n cuts it looks at so few that 2 to the power of their number is at most 2n + 1; a look is a
/// step of the counter. It takes no memory.
pub fn piece_of<L: Ledger>(cuts: &CutList<L>, x: Frac, steps: &mut Steps<L>) -> usize
    requires room { steps.old < 2 ^ 63 }
    ensures piece { result ≡ piece cuts.now x }
    ensures few { 2 ^ (steps.new - steps.old) ≤ 2 * length cuts.now + 1 }
    ensures counted { steps.old ≤ steps.new }
    ensures small { result + 1 < 2 ^ 64 }
{
    let mut low = 0;
    let mut high = cuts.count();
    while low < high {
        let middle = low + (high - low) / 2;
        match cuts.probe(middle, x, steps) {
            Ordering::Less => high = middle,
            Ordering::Equal => return 2 * middle + 1,
            Ordering::Greater => low = middle + 1,
        }
    }
    2 * low
}

/// The same by a counter of its own.
pub(crate) fn piece_among<L: Ledger>(blank: Blank, cuts: &CutList<L>, x: Frac) -> usize
    requires name { blank.name ≡ L.name }
    requires parts { blank.parts ≡ L.parts }
    requires one { 0 < L.parts }
    ensures piece { result ≡ piece cuts.now x }
    ensures small { result + 1 < 2 ^ 64 }
{
    let mut steps: Steps<L> = Steps::new(blank);
    piece_of(cuts, x, &mut steps)
}
