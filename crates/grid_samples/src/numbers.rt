//! The numbers of the pieces of a cell.
ghost use Rattle.std.specs.Prelude.{◌≡◌, ◌*◌, ◌^◌, ◌<◌, None, Some, IfOk, MatchOption};
ghost use Rattle.std.specs.Prelude.{if◌then◌else◌, ◌*ℤ◌, pos, unsigned_abs, Bool};
ghost use Rattle.exact_fraction.specs.Number.{den};
ghost use Rattle.exact_fraction.specs.Operations.{middle_of};
ghost use Rattle.exact_fraction.specs.Order.{same};
ghost use Rattle.interval_sets.specs.declared.interval.Bound.TheVariants as end;
ghost use Rattle.verdict_meaning.specs.Grids.{cell_numbers, middle_if, piece_number};

use byte_edge::NoMemory;
use exact_fraction::frac::Frac;
use exact_fraction::relation::Relation;
use interval_sets::{Bound, Interval};
use rule_types::Key;
use std::alloc::Global;

/// The number of each key of a cell, or None where one does not fit.
pub(crate) fn cell_numbers(
    alloc: Global,
    keys: &[(Key, Interval)],
) -> Result<Option<Vec<(Key, Frac)>>, NoMemory>
    ensures value { IfOk result (λ found. MatchOption found (cell_numbers keys.now ≡ None)
        (λ numbers. cell_numbers keys.now ≡ Some numbers.items)) }
{
    let mut numbers = Vec::with_capacity(alloc, keys.len())?;
    let mut rest = keys;
    'entries: while let Some((entry, more)) = rest.split_first() {
        let Some(number) = piece_number(&entry.1.low, &entry.1.high) else {
            return Ok(None);
        };
        numbers.push((entry.0, number))?;
        rest = more;
    }
    Ok(Some(numbers))
}

/// The number of a piece: its point, or the middle of its gap where that fits.
#[tactic(auto, unfolding(verdict_meaning::specs::Grids::piece_number))]
fn piece_number(low: &Bound, high: &Bound) -> Option<Frac>
    ensures value { result ≡ piece_number low.now high.now }
{
    match low {
        Bound::NoBound => None,
        Bound::Bound(p, _) => number_up_to(p, high),
    }
}

/// The number of a piece that begins at a number.
#[tactic(auto, unfolding(verdict_meaning::specs::Grids::piece_number))]
fn number_up_to(p: &Frac, high: &Bound) -> Option<Frac>
    ensures value { (open_end : Bool)
        → result ≡ piece_number (end.Bound p.now open_end) high.now }
{
    match high {
        Bound::NoBound => None,
        Bound::Bound(q, _) => number_between(p, q),
    }
}

/// The number of a piece between two numbers.
fn number_between(p: &Frac, q: &Frac) -> Option<Frac>
    ensures value { result
        ≡ (if same p.now q.now then Some p.now else middle_if (middle_of p.now q.now)) }
{
    if Relation::Eq.holds(p, q) {
        return Some(*p);
    }
    middle(p, q)
}

/// The number halfway between two numbers, where it fits. The sum of the two need not.
fn middle(p: &Frac, q: &Frac) -> Option<Frac>
    ensures value { result ≡ middle_if (middle_of p.now q.now) }
{
    Frac::make(crosswise(p, q) + crosswise(q, p), denominators(p, q) * 2)
}

/// The numerator of one number times the denominator of the other.
fn crosswise(p: &Frac, q: &Frac) -> i128
    ensures value { result ≡ p.now.num *ℤ pos (den q.now) }
    ensures size { unsigned_abs result < 2 ^ 126 }
{
    p.num() as i128 * q.den() as i128
}

/// The product of two denominators.
fn denominators(p: &Frac, q: &Frac) -> i128
    ensures value { result ≡ pos (den p.now * den q.now) }
    ensures size { unsigned_abs result < 2 ^ 126 }
{
    p.den() as i128 * q.den() as i128
}
