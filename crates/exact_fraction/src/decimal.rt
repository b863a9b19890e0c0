//! Powers of ten as denominators, in lowest terms by their twos and fives.
ghost use Rattle.std.specs.Prelude.{◌≡◌, ◌≤◌, ◌*◌, ◌^◌, ◌⊎◌, pos, neg_ℤ, if◌then◌else◌};
ghost use Rattle.std.specs.Int.{◌∣◌};

/// The numerator `rest` and the number `twos` for which `n / 2^most` is `rest / 2^twos` in lowest
/// terms.
pub(crate) fn without_twos(n: u64, most: u32) -> (u64, u32)
    ensures value { n * 2 ^ result.1 ≡ result.0 * 2 ^ most }
    ensures lowest { (result.1 ≡ 0) ⊎ (¬ (2 ∣ result.0)) }
{
    let mut rest = n;
    let mut twos = most;
    while twos > 0 && rest % 2 == 0 {
        rest /= 2;
        twos -= 1;
    }
    (rest, twos)
}

/// The numerator `rest` and the number `fives` for which `n / 5^most` is `rest / 5^fives` in lowest
/// terms.
pub(crate) fn without_fives(n: u64, most: u32) -> (u64, u32)
    ensures value { n * 5 ^ result.1 ≡ result.0 * 5 ^ most }
    ensures lowest { (result.1 ≡ 0) ⊎ (¬ (5 ∣ result.0)) }
{
    let mut rest = n;
    let mut fives = most;
    while fives > 0 && rest % 5 == 0 {
        rest /= 5;
        fives -= 1;
    }
    (rest, fives)
}

/// The denominator that is left: `2^twos * 5^fives`.
pub(crate) fn factors_left(twos: u32, fives: u32) -> i128
    requires few_twos { twos ≤ 62 }
    requires few_fives { fives ≤ 27 }
    ensures { result ≡ pos (2 ^ twos * 5 ^ fives) }
{
    (1i128 << twos) * 5u64.pow(fives) as i128
}

/// A size with its sign.
pub(crate) fn signed(negative: bool, size: u64) -> i128
    ensures { result ≡ (if negative then neg_ℤ (pos size) else pos size) }
{
    if negative {
        -(size as i128)
    } else {
        size as i128
    }
}
