//! The length of numbers at the head of a text.
ghost use Rattle.std.specs.Prelude.{◌≡◌, ◌+◌, ◌≤◌, length};
ghost use Rattle.expr_parser.specs.Tokens.{digit_count, fraction_length, sign_length};
ghost use Rattle.expr_parser.specs.Tokens.{power_length, exponent_length, length_from};
ghost use Rattle.expr_parser.specs.Tokens.{number_length};

/// The length of the longest unsigned number that the text begins with, 0 where it begins with
/// none: digits with an optional point and optional further digits, or a point and digits, and then
/// optionally `e` or `E`, an optional sign and one to three digits.
#[tactic(auto, unfolding(crate::specs::Tokens::number_length))]
pub(crate) fn number_length(text: &[u8]) -> usize
    ensures value { result ≡ number_length text.now }
    ensures within { result ≤ length text.now }
{
    let whole = digit_count(text);
    length_from(text, whole, fraction_length(&text[whole..]))
}

/// How many digits the text begins with.
fn digit_count(text: &[u8]) -> usize
    ensures value { result ≡ digit_count text.now }
    ensures within { result ≤ length text.now }
{
    let mut end = 0;
    while end < text.len() && text[end].is_ascii_digit() {
        end += 1;
    }
    end
}

/// The length of a point at the head of the text and of the digits behind it.
fn fraction_length(text: &[u8]) -> usize
    ensures value { result ≡ fraction_length text.now }
    ensures within { result ≤ length text.now }
{
    match text {
        [byte, bytes @ ..] => {
            if *byte == b'.' {
                1 + digit_count(bytes)
            } else {
                0
            }
        }
        [] => 0,
    }
}

/// The length of a sign at the head of the text.
fn sign_length(text: &[u8]) -> usize
    ensures value { result ≡ sign_length text.now }
    ensures within { result ≤ length text.now }
    ensures few { result ≤ 1 }
{
    match text {
        [byte, ..] => { if *byte == b'+' || *byte == b'-' { 1 } else { 0 } }
        [] => 0,
    }
}

/// The length of the mark of a power of ten, of its sign, and of at most three digits.
fn power_length(sign: usize, digits: usize) -> usize
    requires few { sign ≤ 1 }
    ensures value { result ≡ power_length sign digits }
    ensures within { result ≤ 1 + (sign + digits) }
{
    if digits == 0 {
        0
    } else {
        1 + (sign + digits.min(3))
    }
}

/// The length of a power of ten at the head of the text.
fn exponent_length(text: &[u8]) -> usize
    ensures value { result ≡ exponent_length text.now }
    ensures within { result ≤ length text.now }
{
    match text {
        [byte, bytes @ ..] => {
            if *byte == b'e' || *byte == b'E' {
                let sign = sign_length(bytes);
                power_length(sign, digit_count(&bytes[sign..]))
            } else {
                0
            }
        }
        [] => 0,
    }
}

/// The length of a number from those of its digits before the point and of its fraction.
fn length_from(text: &[u8], whole: usize, fraction: usize) -> usize
    requires within { whole + fraction ≤ length text.now }
    ensures value { result ≡ length_from text.now whole fraction }
    ensures bound { result ≤ length text.now }
{
    if whole == 0 && fraction <= 1 {
        0
    } else {
        whole + (fraction + exponent_length(&text[whole + fraction..]))
    }
}
