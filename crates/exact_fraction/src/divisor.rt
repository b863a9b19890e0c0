//! Lowest terms and nearest whole numbers, on plain integers.
ghost use Rattle.std.specs.Prelude.{
  ◌≡◌,
  ◌≤◌,
  ◌<◌,
  ◌^◌,
  ◌+◌,
  ◌*◌,
  ◌/◌,
  pos,
  ◌<ℤ◌,
  ◌*ℤ◌,
  unsigned_abs,
};
ghost use Rattle.exact_fraction.specs.Number.{den, gcd, ratio};
ghost use Rattle.exact_fraction.specs.Operations.{nearest_whole};

/// The greatest common divisor, by Euclid's remainders: at most 185 of them at 128 bits.
fn wide_divisor(a: u128, b: u128) -> u128
    ensures { result ≡ gcd a b }
{
    let mut x = a;
    let mut y = b;
    while y != 0 {
        let rest = x % y;
        x = y;
        y = rest;
    }
    x
}

/// The greatest common divisor, by Euclid's remainders: at most 93 of them at 64 bits.
fn narrow_divisor(a: u64, b: u64) -> u64
    ensures { result ≡ gcd a b }
{
    let mut x = a;
    let mut y = b;
    while y != 0 {
        let rest = x % y;
        x = y;
        y = rest;
    }
    x
}

/// The numerator and the denominator of `n / d` in lowest terms.
///
/// Two numbers that fit 64 bits, as most do, are divided at 64 bits, where a division is faster.
pub(crate) fn lowest_terms(n: i128, d: i128) -> (i128, i128)
    requires { pos 0 <ℤ d }
    ensures num { result.0 ≡ (ratio n (unsigned_abs d)).num }
    ensures den { result.1 ≡ pos (den (ratio n (unsigned_abs d))) }
{
    if let (Ok(narrow_n), Ok(narrow_d)) = (i64::try_from(n), i64::try_from(d)) {
        let (num, den) = narrow_terms(narrow_n, narrow_d);
        return (num as i128, den as i128);
    }
    wide_terms(n, d)
}

/// The numerator and the denominator of `n / d` in lowest terms, at 128 bits.
fn wide_terms(n: i128, d: i128) -> (i128, i128)
    requires { pos 0 <ℤ d }
    ensures num { result.0 ≡ (ratio n (unsigned_abs d)).num }
    ensures den { result.1 ≡ pos (den (ratio n (unsigned_abs d))) }
{
    let divisor = wide_divisor(n.unsigned_abs(), d.unsigned_abs()) as i128;
    (n / divisor, d / divisor)
}

/// The numerator and the denominator of `n / d` in lowest terms, at 64 bits.
fn narrow_terms(n: i64, d: i64) -> (i64, i64)
    requires { pos 0 <ℤ d }
    ensures num { result.0 ≡ (ratio n (unsigned_abs d)).num }
    ensures den { result.1 ≡ pos (den (ratio n (unsigned_abs d))) }
{
    let divisor = narrow_divisor(n.unsigned_abs(), d.unsigned_abs()) as i64;
    (n / divisor, d / divisor)
}

/// The product of two numbers of 63 bits.
pub(crate) fn times(a: i128, b: i128) -> i128
    requires left { unsigned_abs a < 2 ^ 63 }
    requires right { unsigned_abs b < 2 ^ 63 }
    ensures value { result ≡ a *ℤ b }
    ensures size { unsigned_abs result < 2 ^ 126 }
{
    a * b
}

/// The whole number nearest to `n / d`, half away from 0.
pub(crate) fn nearest(n: i128, d: i128) -> i128
    requires size { unsigned_abs n < 2 ^ 126 }
    requires positive { pos 0 <ℤ d }
    requires small { unsigned_abs d < 2 ^ 63 }
    ensures { result ≡ nearest_whole n (unsigned_abs d) }
{
    let size = nearest_size(n.unsigned_abs(), d.unsigned_abs());
    if n < 0 { -size } else { size }
}

/// The whole number nearest to `n / d`, half upward.
fn nearest_size(n: u128, d: u128) -> i128
    requires size { n ≤ 2 ^ 126 }
    requires positive { 0 < d }
    requires small { d < 2 ^ 63 }
    ensures { result ≡ pos ((2 * n + d) / (2 * d)) }
{
    ((2 * n + d) / (2 * d)) as i128
}
