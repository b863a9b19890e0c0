//! A line and its words.
ghost use Rattle.std.specs.Prelude.{◌≡◌, suc, ◌&&◌, option_map, IfOk};
ghost use Rattle.std.specs.Str.{bytes_eq};
ghost use Rattle.report_lines.specs.Words.{line_at, words_of};
ghost use Rattle.report_lines.specs.internal.Views.{texts};

use crate::parts::next_part;
use byte_edge::NoMemory;
use inp_text::{LineText, Lines};
use std::alloc::Global;

/// The bytes of the line at a place, where there is such a line and it is not too long.
pub(crate) fn text_at(lines: &Lines, at: usize) -> Option<&[u8]>
    ensures { option_map (λ line. line.now) result ≡ line_at lines.now at }
{
    match lines.get(at) {
        Some(LineText::Text(bytes)) => Some(bytes),
        _ => None,
    }
}

/// The words of a line.
#[tactic(auto, unfolding(crate::specs::Words::words_of))]
pub(crate) fn words_of(alloc: Global, line: &[u8]) -> Result<Vec<&[u8]>, NoMemory>
    ensures { IfOk result (λ words. texts words.items ≡ words_of line.now) }
{
    let mut words = Vec::new(alloc);
    let mut left = line;
    for _ in 0..line.len() + 1 {
        let cut = next_part(left, b' ');
        let Ok(()) = words.push(cut.part) else {
            return Err(NoMemory);
        };
        match cut.behind {
            Some(rest) => left = rest,
            None => return Ok(words),
        }
    }
    Err(NoMemory)
}

/// The place behind another.
pub(crate) fn next_place(at: usize) -> Result<usize, NoMemory>
    ensures { IfOk result (λ next. next ≡ suc at) }
{
    match at.checked_add(1) {
        Some(next) => Ok(next),
        None => Err(NoMemory),
    }
}

/// Whether a text is a word.
pub(crate) fn is_word(text: &[u8], word: &[u8]) -> bool
    ensures { result ≡ bytes_eq text.now word.now }
{
    text == word
}

/// Whether two texts are two words.
pub(crate) fn are_words(one: &[u8], first: &[u8], other: &[u8], second: &[u8]) -> bool
    ensures { result ≡ (bytes_eq one.now first.now && bytes_eq other.now second.now) }
{
    is_word(one, first) && is_word(other, second)
}
