//! Whole seconds at or after and at or before so many hours.
ghost use Rattle.std.specs.Prelude.{◌≡◌, ◌≤◌, ◌<◌, ◌^◌, ◌≤ℤ◌, ◌<ℤ◌, ◌*ℤ◌, pos, neg_ℤ};
ghost use Rattle.std.specs.Prelude.{unsigned_abs};
ghost use Rattle.std.specs.Int.{int_div_euclid};
ghost use Rattle.exact_fraction.specs.Number.{den};
ghost use Rattle.table_hulls.specs.Hulls.{second_from, second_up_to, later_second, earlier_second};

use exact_fraction::frac::Frac;

/// So many hours as a quotient of seconds by a positive number.
#[derive(Clone, Copy)]
struct Quotient {
    num: i128,
    den: i128,
}

/// So many hours in seconds.
fn seconds_of(hours: &Frac) -> Quotient
    ensures num { result.num ≡ hours.now.num *ℤ pos 3600 }
    ensures den { result.den ≡ pos (den hours.now) }
    ensures positive { pos 0 <ℤ result.den }
    ensures size { unsigned_abs result.num < 2 ^ 75 }
{
    Quotient {
        num: hours.num() as i128 * 3_600,
        den: hours.den() as i128,
    }
}

/// The floor of a quotient.
fn floor(num: &i128, den: &i128) -> i128
    requires positive { pos 0 <ℤ den.now }
    requires size { unsigned_abs num.now ≤ 2 ^ 75 }
    ensures value { result ≡ int_div_euclid num.now den.now }
    ensures size { unsigned_abs result ≤ 2 ^ 75 }
{
    num.div_euclid(*den)
}

/// The number with its sign turned.
fn negated(number: &i128) -> i128
    requires size { unsigned_abs number.now ≤ 2 ^ 75 }
    ensures value { result ≡ neg_ℤ number.now }
    ensures size { unsigned_abs result ≤ 2 ^ 75 }
{
    -*number
}

/// The first second at or after so many hours, counted from `base`.
#[tactic(auto, unfolding(crate::specs::Hulls::second_from))]
pub(crate) fn second_from(base: &i64, x: &Frac) -> i128
    ensures value { result ≡ second_from base.now x.now }
{
    let seconds = seconds_of(x);
    let turned = negated(&seconds.num);
    let taken = floor(&turned, &seconds.den);
    *base as i128 - taken
}

/// The last second at or before so many hours, counted from `base`.
#[tactic(auto, unfolding(crate::specs::Hulls::second_up_to))]
pub(crate) fn second_up_to(base: &i64, x: &Frac) -> i128
    ensures value { result ≡ second_up_to base.now x.now }
{
    let seconds = seconds_of(x);
    let added = floor(&seconds.num, &seconds.den);
    *base as i128 + added
}

/// The later of two seconds.
pub(crate) fn later_second(a: &i128, b: &i128) -> i128
    ensures value { result ≡ later_second a.now b.now }
    ensures least { a.now ≤ℤ result }
{
    if *a <= *b { *b } else { *a }
}

/// The earlier of two seconds.
pub(crate) fn earlier_second(a: &i128, b: &i128) -> i128
    ensures value { result ≡ earlier_second a.now b.now }
    ensures most { result ≤ℤ a.now }
{
    if *a <= *b { *a } else { *b }
}
