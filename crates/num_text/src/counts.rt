//! Counts.
ghost use Rattle.std.specs.Prelude.{◌≡◌, IsTrue};
ghost use Rattle.std.specs.List.{list_all};
ghost use Rattle.std.specs.Char.{is_ascii_digit};
ghost use Rattle.num_text.specs.Counts.{is_padded, count_in, count_of};

use crate::fields::number_up_to;
use crate::pointed::last_digits;

/// The count that a text writes: one to twenty digits without leading zeros, below 2^64. None
/// exactly where the text is anything else.
#[tactic(auto, unfolding(crate::specs::Counts::count_of))]
pub fn read_count(text: &[u8]) -> Option<u64>
    ensures value { result ≡ count_of text.now }
{
    let digits = last_digits(text, 20)?;
    if is_padded(digits) {
        return None;
    }
    count_in(digits)
}

/// Whether a zero stands before other digits.
fn is_padded(digits: &[u8]) -> bool
    ensures value { result ≡ is_padded digits.now }
{
    digits.len() > 1 && digits[0] == b'0'
}

/// The number that digits write. None where it is 2^64 or more.
fn count_in(digits: &[u8]) -> Option<u64>
    requires digits_alone { IsTrue (list_all is_ascii_digit digits.now) }
    ensures value { result ≡ count_in digits.now }
{
    number_up_to(digits, u64::MAX)
}
