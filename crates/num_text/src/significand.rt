//! The significand of digits: the number that they write without the zeros at their end.
ghost use Rattle.std.specs.Prelude.{◌≡◌, ℕ, ◌+◌, ◌<◌, ◌≤◌, ◌^◌, List, [], ◌∷◌, ◌++◌, length, IsTrue};
ghost use Rattle.std.specs.List.{list_all};
ghost use Rattle.std.specs.Char.{is_ascii_digit};
ghost use Rattle.num_text.specs.internal.Significands.{IsHeld, IsSignificandOf, zeros_held};

/// The least significand that is past the bounds whatever the power of ten: over a denominator of
/// 10^18 or less it does not fit.
pub(crate) const LARGE: u128 = 10_000_000_000_000_000_000_000_000_000_000_000_000;

/// The significand of digits.
#[derive(Clone, Copy)]
pub(crate) enum Significand {
    /// The number that the digits write without the zeros at their end, and how many zeros these
    /// are.
    Held(u128, u128),
    /// That number is 10^37 or more.
    Large,
}

impl Significand {
    /// The significand of no digits.
    pub(crate) fn of_none() -> Significand
        ensures stands { IsSignificandOf result [] }
        ensures zeros { zeros_held result ≡ 0 }
    {
        Significand::Held(0, 0)
    }

    /// The significand with further digits behind. A digit costs one multiplication at most.
    pub(crate) fn with_digits(self, digits: &[u8]) -> Significand
        requires digits_alone { IsTrue (list_all is_ascii_digit digits.now) }
        requires room { zeros_held self + length digits.now < 2 ^ 100 }
        ensures stands { (front : List ℕ) → IsSignificandOf self front
            → IsSignificandOf result (front ++ digits.now) }
        ensures zeros { zeros_held result ≤ zeros_held self + length digits.now }
    {
        let mut so_far = self;
        for digit in digits {
            so_far = so_far.with_digit(*digit);
        }
        so_far
    }

    /// The significand with one more digit behind.
    fn with_digit(self, digit: u8) -> Significand
        requires is_digit { IsTrue (is_ascii_digit digit) }
        requires room { zeros_held self < 2 ^ 100 }
        ensures stands { (front : List ℕ) → IsSignificandOf self front
            → IsSignificandOf result (front ++ digit ∷ []) }
        ensures zeros { zeros_held result ≤ zeros_held self + 1 }
    {
        match self {
            Significand::Large => Significand::Large,
            Significand::Held(number, zeros) => {
                if digit == b'0' {
                    return Significand::Held(number, zeros + 1);
                }
                grown(number, zeros, digit)
            }
        }
    }
}

/// The significand with so many zeros, and then a digit that is none, behind.
fn grown(number: u128, zeros: u128, digit: u8) -> Significand
    requires least { 48 < digit }
    requires most { digit ≤ 57 }
    ensures stands { (front : List ℕ) → IsHeld number zeros front
        → IsSignificandOf result (front ++ digit ∷ []) }
    ensures zeros { zeros_held result ≡ 0 }
{
    if number == 0 {
        return Significand::Held((digit - b'0') as u128, 0);
    }
    if zeros >= 37 {
        return Significand::Large;
    }
    let Some(moved) = number.checked_mul(10u128.pow(zeros as u32 + 1)) else {
        return Significand::Large;
    };
    if moved >= LARGE {
        return Significand::Large;
    }
    Significand::Held(moved + (digit - b'0') as u128, 0)
}
