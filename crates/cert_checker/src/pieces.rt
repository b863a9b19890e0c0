//! The intervals of a box that is split at a number.
ghost use Rattle.std.specs.Prelude.{◌≡◌, MatchOption, None};
ghost use Rattle.verdict_meaning.specs.Certificates.{above_of, are_apart, below_of, can_split};
ghost use Rattle.verdict_meaning.specs.Certificates.{is_not_above, is_not_below, is_wide};
ghost use Rattle.verdict_meaning.specs.Reaches.{piece_in};
ghost use Rattle.cert_checker.specs.internal.Narrowing.{IsPlaceOf};

use exact_fraction::frac::Frac;
use interval_sets::{Bound, Interval};
use rule_types::Key;

/// The place of a key's entry among keys with their intervals, or None where the key is not there.
pub(crate) fn place_of(key: &Key, keys: &[(Key, Interval)]) -> Option<usize>
    ensures found { MatchOption result (piece_in key.now keys.now ≡ None)
        (λ at. IsPlaceOf key.now at keys.now) }
{
    for at in 0..keys.len() {
        if *key == keys[at].0 {
            return Some(at);
        }
    }
    None
}

/// Whether an interval is more than a point, and a number lies between its ends or is one of them.
#[tactic(auto, unfolding(verdict_meaning::specs::Certificates::can_split))]
pub(crate) fn can_split(piece: &Interval, number: &Frac) -> bool
    ensures value { result ≡ can_split piece.now number.now }
{
    is_wide(piece) & (is_not_below(&piece.low, number) & is_not_above(&piece.high, number))
}

/// Whether an interval is more than a point.
fn is_wide(piece: &Interval) -> bool
    ensures value { result ≡ is_wide piece.now }
{
    match (&piece.low, &piece.high) {
        (Bound::Bound(p, _), Bound::Bound(q, _)) => p.is_less(q),
        _ => true,
    }
}

/// Whether a number is not below a low end.
fn is_not_below(low: &Bound, number: &Frac) -> bool
    ensures value { result ≡ is_not_below low.now number.now }
{
    match low {
        Bound::NoBound => true,
        Bound::Bound(p, _) => !number.is_less(p),
    }
}

/// Whether a number is not above a high end.
fn is_not_above(high: &Bound, number: &Frac) -> bool
    ensures value { result ≡ is_not_above high.now number.now }
{
    match high {
        Bound::NoBound => true,
        Bound::Bound(p, _) => !p.is_less(number),
    }
}

/// The part of an interval below a number.
pub(crate) fn below_of(piece: &Interval, number: &Frac) -> Interval
    ensures value { result ≡ below_of piece.now number.now }
{
    Interval {
        low: piece.low,
        high: Bound::Bound(*number, true),
    }
}

/// The part of an interval above a number.
pub(crate) fn above_of(piece: &Interval, number: &Frac) -> Interval
    ensures value { result ≡ above_of piece.now number.now }
{
    Interval {
        low: Bound::Bound(*number, true),
        high: piece.high,
    }
}
