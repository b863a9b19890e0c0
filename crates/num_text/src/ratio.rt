//! Small ratios.
ghost use Rattle.std.specs.Prelude.{◌≡◌, ◌<◌, ◌^◌, pos, Some};
ghost use Rattle.exact_fraction.specs.Number.{ratio};

use exact_fraction::frac::Frac;

/// The number `number / denominator`, of two numbers that fit.
pub(crate) fn ratio_of(number: u64, denominator: u64) -> Option<Frac>
    requires number_fits { number < 2 ^ 63 }
    requires denominator_fits { denominator < 2 ^ 63 }
    requires positive { 0 < denominator }
    ensures value { result ≡ Some (ratio (pos number) denominator) }
{
    Frac::make(number as i128, denominator as i128)
}
