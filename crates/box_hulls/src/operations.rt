//! What operations can give, from what their operands can be: nothing where an operand is surely
//! missing, and surely something where all are surely present.
ghost use Rattle.std.specs.Prelude.{◌≡◌};
ghost use Rattle.verdict_meaning.specs.Hulls.{difference_hull, negation_hull, power_hull};
ghost use Rattle.verdict_meaning.specs.Hulls.{product_hull, quotient_hull, sign_hull, size_hull};
ghost use Rattle.verdict_meaning.specs.Hulls.{step_hull, sum_hull};
ghost use Rattle.verdict_meaning.specs.Reaches.{over, over_both};

use crate::ends::{difference_hull, negation_hull, sum_hull};
use crate::products::{power_hull, product_hull, quotient_hull};
use crate::signs::{sign_hull, size_hull, step_hull};
use verdict_meaning::Reach;

/// The negation of an operand.
pub(crate) fn negation_reach(a: &Reach) -> Reach
    ensures value { result ≡ over negation_hull a.now }
{
    match a {
        Reach::Missing => Reach::Missing,
        Reach::Within(sure, piece) => Reach::Within(*sure, negation_hull(piece)),
    }
}

/// The size of an operand.
pub(crate) fn size_reach(a: &Reach) -> Reach
    ensures value { result ≡ over size_hull a.now }
{
    match a {
        Reach::Missing => Reach::Missing,
        Reach::Within(sure, piece) => Reach::Within(*sure, size_hull(piece)),
    }
}

/// The sign of an operand.
pub(crate) fn sign_reach(a: &Reach) -> Reach
    ensures value { result ≡ over sign_hull a.now }
{
    match a {
        Reach::Missing => Reach::Missing,
        Reach::Within(sure, piece) => Reach::Within(*sure, sign_hull(piece)),
    }
}

/// The step of an operand.
pub(crate) fn step_reach(a: &Reach) -> Reach
    ensures value { result ≡ over step_hull a.now }
{
    match a {
        Reach::Missing => Reach::Missing,
        Reach::Within(sure, piece) => Reach::Within(*sure, step_hull(piece)),
    }
}

/// An operand to a power.
pub(crate) fn power_reach(a: &Reach, n: u8) -> Reach
    ensures value { result ≡ over (λ piece. power_hull piece n) a.now }
{
    match a {
        Reach::Missing => Reach::Missing,
        Reach::Within(sure, piece) => Reach::Within(*sure, power_hull(piece, n)),
    }
}

/// The sum of two operands.
pub(crate) fn sum_reach(a: &Reach, b: &Reach) -> Reach
    ensures value { result ≡ over_both sum_hull a.now b.now }
{
    match (a, b) {
        (Reach::Within(sure, piece), Reach::Within(certain, other)) => {
            Reach::Within(*sure & *certain, sum_hull(piece, other))
        }
        _ => Reach::Missing,
    }
}

/// The difference of two operands.
pub(crate) fn difference_reach(a: &Reach, b: &Reach) -> Reach
    ensures value { result ≡ over_both difference_hull a.now b.now }
{
    match (a, b) {
        (Reach::Within(sure, piece), Reach::Within(certain, other)) => {
            Reach::Within(*sure & *certain, difference_hull(piece, other))
        }
        _ => Reach::Missing,
    }
}

/// The product of two operands.
pub(crate) fn product_reach(a: &Reach, b: &Reach) -> Reach
    ensures value { result ≡ over_both product_hull a.now b.now }
{
    match (a, b) {
        (Reach::Within(sure, piece), Reach::Within(certain, other)) => {
            Reach::Within(*sure & *certain, product_hull(piece, other))
        }
        _ => Reach::Missing,
    }
}

/// The quotient of two operands.
pub(crate) fn quotient_reach(a: &Reach, b: &Reach) -> Reach
    ensures value { result ≡ over_both quotient_hull a.now b.now }
{
    match (a, b) {
        (Reach::Within(sure, piece), Reach::Within(certain, other)) => {
            Reach::Within(*sure & *certain, quotient_hull(piece, other))
        }
        _ => Reach::Missing,
    }
}
