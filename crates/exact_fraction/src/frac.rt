//! Numbers.
ghost use Rattle.std.specs.Prelude.{◌≡◌, false, ◌<◌, ◌^◌, pos, pred, ◌<ℤ◌, unsigned_abs};
ghost use Rattle.exact_fraction.specs.Number.{den, whole, zero, one, IsLowest, IsNumber};
ghost use Rattle.exact_fraction.specs.Order.{compares, less, greater_of, lesser_of};
ghost use Rattle.exact_fraction.specs.Operations.{
  sum_of,
  difference_of,
  product_of,
  quotient_of,
  negation_of,
  round9_of,
};
ghost use Rattle.exact_fraction.specs.Checked.{made, fitting, checked, is_zero, checked_quotient};

use crate::decimal::{factors_left, signed, without_fives, without_twos};
use crate::divisor::{lowest_terms, nearest, times};
use crate::error::{DivFault, Overflow};
use std::cmp::Ordering;
use std::marker::Model;

/// A number: a fraction in lowest terms, with a positive denominator, whose numerator in size and
/// whose denominator are at most 2^63 - 1.
///
/// `make` and the operations cost the remainders of one greatest common divisor: at most 185, and
/// mostly far fewer. A comparison, a test, `decimal`, `whole`, `natural`, `neg`, `max` and `min`
/// cost none.
#[derive(Clone, Copy, Debug, PartialEq, Eq)]
pub struct Frac {
    num: i64,
    den: i64,
}

impl Model for Frac {
    ghost use Rattle.std.specs.Prelude.{pos, suc, pred, unsigned_abs, ◌<ℤ◌};
    ghost use Rattle.exact_fraction.specs.Number.{Rational, IsNumber};

    ghost Value = { Rational };

    ghost view = { λ f. record { num = f.num; below = pred (unsigned_abs f.den) } };

    ghost invariant = { λ f. (pos 0 <ℤ f.den)
        × IsNumber (record { num = f.num; below = pred (unsigned_abs f.den) }) };

    ghost inverse = { λ q. record { num = q.num; den = pos (suc q.below) } };
}

/// The denominator of the multiples that `round9` gives: 10^9.
const BILLION: i128 = 1_000_000_000;

impl Frac {
    /// The number 0.
    pub fn zero() -> Frac
        ensures value { result ≡ zero }
    {
        Frac { num: 0, den: 1 }
    }

    /// The number 1.
    pub fn one() -> Frac
        ensures value { result ≡ one }
    {
        Frac { num: 1, den: 1 }
    }

    /// The whole number `n`.
    pub fn whole(n: i32) -> Frac
        ensures value { result ≡ whole n }
    {
        Frac {
            num: n as i64,
            den: 1,
        }
    }

    /// The natural number `n`.
    pub fn natural(n: u32) -> Frac
        ensures value { result ≡ whole (pos n) }
    {
        Frac {
            num: n as i64,
            den: 1,
        }
    }

    /// The number `n / d`: None exactly where `d` is below 1 or the fraction does not fit.
    pub fn make(n: i128, d: i128) -> Option<Frac>
        ensures value { result ≡ made n d }
    {
        if d < 1 {
            return None;
        }
        let (num, den) = lowest_terms(n, d);
        fitting_number(num, den)
    }

    /// The number `digits / 10^places`: None exactly where it does not fit.
    ///
    /// Faster than `make`: it takes out the common twos and fives, at most 63 and 27 of them, and
    /// needs no greatest common divisor.
    pub fn decimal(digits: i64, places: u32) -> Option<Frac>
        ensures value { result ≡ made digits (pos (10 ^ places)) }
    {
        if digits == 0 {
            return Some(Frac::zero());
        }
        let (half, twos) = without_twos(digits.unsigned_abs(), places);
        let (size, fives) = without_fives(half, places);
        if twos > 62 {
            return None;
        }
        if fives > 27 {
            return None;
        }
        fitting_number(signed(digits < 0, size), factors_left(twos, fives))
    }

    /// The numerator in lowest terms.
    pub fn num(self) -> i64
        ensures value { result ≡ self.num }
        ensures held { IsNumber self }
    {
        self.num
    }

    /// The denominator in lowest terms, which is at least 1.
    pub fn den(self) -> i64
        ensures value { result ≡ pos (den self) }
        ensures held { IsNumber self }
    {
        self.den
    }

    /// The sum: Overflow exactly where it does not fit.
    pub fn add(self, o: Frac) -> Result<Frac, Overflow>
        ensures value { result ≡ checked (sum_of self o) }
    {
        let (n, d) = self.parts();
        let (m, e) = o.parts();
        Frac::make(times(n, e) + times(m, d), times(d, e)).ok_or(Overflow)
    }

    /// The difference `self - o`: Overflow exactly where it does not fit.
    pub fn sub(self, o: Frac) -> Result<Frac, Overflow>
        ensures value { result ≡ checked (difference_of self o) }
    {
        let (n, d) = self.parts();
        let (m, e) = o.parts();
        Frac::make(times(n, e) - times(m, d), times(d, e)).ok_or(Overflow)
    }

    /// The product: Overflow exactly where it does not fit.
    pub fn mul(self, o: Frac) -> Result<Frac, Overflow>
        ensures value { result ≡ checked (product_of self o) }
    {
        let (n, d) = self.parts();
        let (m, e) = o.parts();
        Frac::make(times(n, m), times(d, e)).ok_or(Overflow)
    }

    /// The quotient `self / o`: Zero exactly where `o` is 0, and Overflow exactly where `o` is not
    /// 0 and the quotient does not fit.
    #[tactic(auto, using(crate::proofs::Tells::quotient_tests))]
    pub fn div(self, o: Frac) -> Result<Frac, DivFault>
        ensures value { result ≡ checked_quotient self o }
    {
        if o.is_zero() {
            return Err(DivFault::Zero);
        }
        match self.quotient(o) {
            Ok(quotient) => Ok(quotient),
            Err(_) => Err(DivFault::Overflow),
        }
    }

    /// The quotient by a number that is not 0: Overflow exactly where it does not fit.
    pub fn quotient(self, divisor: Frac) -> Result<Frac, Overflow>
        requires divides { is_zero divisor ≡ false }
        ensures value { result ≡ checked (quotient_of self divisor) }
    {
        let (n, d) = self.parts();
        let (m, e) = divisor.parts();
        if m < 0 {
            return Frac::make(-times(n, e), times(d, -m)).ok_or(Overflow);
        }
        Frac::make(times(n, e), times(d, m)).ok_or(Overflow)
    }

    /// The number with its sign turned, which always fits.
    pub fn neg(self) -> Frac
        ensures value { result ≡ negation_of self }
    {
        Frac {
            num: -self.num,
            den: self.den,
        }
    }

    /// How `self` stands to `o`, for all numbers.
    pub fn cmp(&self, o: &Frac) -> Ordering
        ensures value { result ≡ compares self.now o.now }
    {
        let (n, d) = self.parts();
        let (m, e) = o.parts();
        times(n, e).cmp(&times(m, d))
    }

    /// Whether `self` is below `o`.
    #[tactic(auto, using(crate::proofs::Tells::order_tests))]
    pub fn is_less(&self, o: &Frac) -> bool
        ensures value { result ≡ less self.now o.now }
    {
        self.cmp(o).is_lt()
    }

    /// Whether the number is 0.
    #[tactic(auto, unfolding(crate::specs::Checked::is_zero))]
    pub fn is_zero(&self) -> bool
        ensures value { result ≡ is_zero self.now }
    {
        self.num().unsigned_abs() == 0
    }

    /// The greater of the two.
    #[tactic(auto, using(crate::proofs::Tells::order_tests))]
    pub fn max(self, o: Frac) -> Frac
        ensures value { result ≡ greater_of self o }
    {
        if self.cmp(&o).is_lt() { o } else { self }
    }

    /// The lesser of the two.
    #[tactic(auto, using(crate::proofs::Tells::order_tests))]
    pub fn min(self, o: Frac) -> Frac
        ensures value { result ≡ lesser_of self o }
    {
        if o.cmp(&self).is_lt() { o } else { self }
    }

    /// The nearest multiple of 10^-9, half away from 0: Overflow exactly where it does not fit.
    pub fn round9(self) -> Result<Frac, Overflow>
        ensures value { result ≡ checked (round9_of self) }
    {
        let (n, d) = self.parts();
        Frac::make(nearest(times(n, BILLION), d), BILLION).ok_or(Overflow)
    }

    /// The numerator and the denominator, wide enough to multiply.
    fn parts(&self) -> (i128, i128)
        ensures num { result.0 ≡ self.now.num }
        ensures den { result.1 ≡ pos (den self.now) }
        ensures num_size { unsigned_abs result.0 < 2 ^ 63 }
        ensures den_size { unsigned_abs result.1 < 2 ^ 63 }
        ensures positive { pos 0 <ℤ result.1 }
    {
        (self.num as i128, self.den as i128)
    }
}

/// The number of a numerator and a denominator in lowest terms: None exactly where it does not fit.
fn fitting_number(num: i128, den: i128) -> Option<Frac>
    requires positive { pos 0 <ℤ den }
    requires lowest { IsLowest (record { num = num; below = pred (unsigned_abs den) }) }
    ensures { result ≡ fitting (record { num = num; below = pred (unsigned_abs den) }) }
{
    const MOST: i128 = i64::MAX as i128;
    if num < -MOST || MOST < num || MOST < den {
        return None;
    }
    Some(Frac {
        num: num as i64,
        den: den as i64,
    })
}
