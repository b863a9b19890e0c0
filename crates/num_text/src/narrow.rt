//! The significand of digits at 64 bits, which is enough for most numbers.
ghost use Rattle.std.specs.Prelude.{◌≡◌, ℕ, ◌+◌, ◌<◌, ◌≤◌, ◌^◌, ◌++◌, ◌∷◌, [], List, IfSome, IsTrue};
ghost use Rattle.std.specs.List.{list_all};
ghost use Rattle.std.specs.Char.{is_ascii_digit};
ghost use Rattle.num_text.specs.internal.Significands.{IsHeld};

/// The number that digits write without the zeros at their end, and how many zeros these are.
#[derive(Clone, Copy)]
pub(crate) struct NarrowSignificand {
    /// The number.
    pub(crate) number: u64,
    /// How many zeros stand behind it.
    pub(crate) zeros: u32,
}

impl NarrowSignificand {
    /// The significand of digits before and behind a point. None only where the number takes more
    /// than 64 bits, or the zeros are 2^32 or more.
    pub(crate) fn of(whole: &[u8], behind: &[u8]) -> Option<NarrowSignificand>
        requires whole_digits { IsTrue (list_all is_ascii_digit whole.now) }
        requires digits_behind { IsTrue (list_all is_ascii_digit behind.now) }
        ensures held { IfSome result (λ s. IsHeld s.number s.zeros (whole.now ++ behind.now)) }
    {
        let none = NarrowSignificand {
            number: 0,
            zeros: 0,
        };
        let front = none.with_digits(whole)?;
        front.with_digits(behind)
    }

    /// The significand with further digits behind.
    fn with_digits(self, digits: &[u8]) -> Option<NarrowSignificand>
        requires digits_alone { IsTrue (list_all is_ascii_digit digits.now) }
        ensures held { IfSome result (λ s. (front : List ℕ) → IsHeld self.number self.zeros front
            → IsHeld s.number s.zeros (front ++ digits.now)) }
    {
        let mut so_far = self;
        for digit in digits {
            so_far = so_far.with_digit(*digit)?;
        }
        Some(so_far)
    }

    /// The significand with one more digit behind.
    fn with_digit(self, digit: u8) -> Option<NarrowSignificand>
        requires is_digit { IsTrue (is_ascii_digit digit) }
        ensures held { IfSome result (λ s. (front : List ℕ) → IsHeld self.number self.zeros front
            → IsHeld s.number s.zeros (front ++ digit ∷ [])) }
    {
        if digit == b'0' {
            return self.with_zero();
        }
        self.with_more(digit)
    }

    /// The significand with one more zero behind.
    fn with_zero(self) -> Option<NarrowSignificand>
        ensures held { IfSome result (λ s. (front : List ℕ) → IsHeld self.number self.zeros front
            → IsHeld s.number s.zeros (front ++ 48 ∷ [])) }
    {
        Some(NarrowSignificand {
            number: self.number,
            zeros: self.zeros.checked_add(1)?,
        })
    }

    /// The significand with one more digit behind, which is not 0.
    fn with_more(self, digit: u8) -> Option<NarrowSignificand>
        requires least { 48 < digit }
        requires most { digit ≤ 57 }
        ensures held { IfSome result (λ s. (front : List ℕ) → IsHeld self.number self.zeros front
            → IsHeld s.number s.zeros (front ++ digit ∷ [])) }
    {
        let moved = self.number.checked_mul(scale_behind(self.zeros)?)?;
        Some(NarrowSignificand {
            number: moved.checked_add((digit - b'0') as u64)?,
            zeros: 0,
        })
    }
}

/// The power of ten that makes room for a digit behind so many zeros. None where it takes more than
/// 64 bits.
fn scale_behind(zeros: u32) -> Option<u64>
    ensures value { IfSome result (λ scale. scale ≡ 10 ^ (zeros + 1)) }
{
    if zeros == 0 {
        return Some(10);
    }
    if zeros > 18 {
        return None;
    }
    Some(10u64.pow(zeros + 1))
}
