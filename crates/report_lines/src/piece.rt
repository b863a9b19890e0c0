//! Pieces as they are written.
ghost use Rattle.std.specs.Prelude.{◌≡◌, ◌∷◌, ◌==◌};
ghost use Rattle.std.specs.List.{slice_split};
ghost use Rattle.report_lines.specs.KeyLines.{piece_of, piece_by, low_end, high_end, high_by, open_end};
ghost use Rattle.report_lines.specs.KeyLines.{bound_if, interval_of};

use crate::parts::next_part;
use crate::value::value_of;
use exact_fraction::frac::Frac;
use interval_sets::{Bound, Interval};

/// The interval that is written, where it has a member.
#[tactic(auto, unfolding(crate::specs::KeyLines::piece_of))]
pub(crate) fn piece_of(text: &[u8]) -> Option<Interval>
    ensures { result ≡ piece_of text.now }
{
    let low = next_part(text, b',');
    let rest = low.behind?;
    two_ends(low.part, rest)
}

/// The interval of a lower end and of what stands behind its comma.
fn two_ends(low: &[u8], rest: &[u8]) -> Option<Interval>
    ensures { result ≡ piece_by (low.now ∷ slice_split (λ byte. byte == 44) rest.now) }
{
    let high = next_part(rest, b',');
    match high.behind {
        Some(_) => None,
        None => interval_of(low_end(low), high_end(high.part)),
    }
}

/// The interval of two ends, where it has a member.
fn interval_of(low: Option<Bound>, high: Option<Bound>) -> Option<Interval>
    ensures { result ≡ interval_of low high }
{
    let low = low?;
    let high = high?;
    let piece = Interval { low, high };
    if piece.is_empty() {
        return None;
    }
    Some(piece)
}

/// The lower end that is written.
#[tactic(auto, unfolding(crate::specs::KeyLines::low_end))]
fn low_end(text: &[u8]) -> Option<Bound>
    ensures { result ≡ low_end text.now }
{
    let [byte, rest @ ..] = text else {
        return None;
    };
    if *byte == b'(' {
        return open_end(b"-inf", rest);
    }
    if *byte == b'[' {
        return bound_if(false, value_of(rest));
    }
    None
}

/// The upper end that is written.
#[tactic(auto, unfolding(crate::specs::KeyLines::high_end))]
fn high_end(text: &[u8]) -> Option<Bound>
    ensures { result ≡ high_end text.now }
{
    let at = text.len().saturating_sub(1);
    let byte = text.get(at)?;
    high_by(&text[..at], *byte)
}

/// The upper end whose bracket is a byte.
fn high_by(text: &[u8], byte: u8) -> Option<Bound>
    ensures { result ≡ high_by text.now byte }
{
    if byte == b')' {
        return open_end(b"+inf", text);
    }
    if byte == b']' {
        return bound_if(false, value_of(text));
    }
    None
}

/// An end that is left out, or none where there is no end.
fn open_end(endless: &[u8], text: &[u8]) -> Option<Bound>
    ensures { result ≡ open_end endless.now text.now }
{
    if endless == text {
        return Some(Bound::NoBound);
    }
    bound_if(true, value_of(text))
}

/// The end at a number.
fn bound_if(out: bool, number: Option<Frac>) -> Option<Bound>
    ensures { result ≡ bound_if out number }
{
    let number = number?;
    Some(Bound::Bound(number, out))
}
