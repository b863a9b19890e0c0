//! The lines of verdicts.
ghost use Rattle.std.specs.Prelude.{◌≡◌, IfOk};
ghost use Rattle.report_lines.specs.Reports.{verdict_line, count_by as by_count};
ghost use Rattle.report_lines.specs.internal.Views.{texts};

use crate::line::{is_word, words_of};
use byte_edge::NoMemory;
use num_text::counts::read_count;
use std::alloc::Global;

/// What a line says of a question.
#[derive(Clone, Copy, Debug, PartialEq, Eq)]
pub enum VerdictLine {
    /// It holds: a tree follows.
    Holds,
    /// It is refuted: a state follows.
    Refuted,
    /// It stays undecided by a cell, which follows.
    Cell,
    /// It stays undecided by this count of cells.
    Count(u64),
}

/// The verdict of a line.
#[tactic(auto, unfolding(crate::specs::Reports::verdict_line))]
pub(crate) fn verdict_line(alloc: Global, line: &[u8]) -> Result<Option<VerdictLine>, NoMemory>
    ensures { IfOk result (λ verdict. verdict ≡ verdict_line line.now) }
{
    if is_word(line, b"holds") {
        return Ok(Some(VerdictLine::Holds));
    }
    if is_word(line, b"refuted") {
        return Ok(Some(VerdictLine::Refuted));
    }
    if is_word(line, b"undecided cell") {
        return Ok(Some(VerdictLine::Cell));
    }
    let words = words_of(alloc, line)?;
    Ok(count_by(words.as_slice()))
}

/// The count of these words.
fn count_by<'a>(words: &'a [&'a [u8]]) -> Option<VerdictLine>
    ensures { result ≡ by_count (texts words.now) }
{
    match words {
        [head, second, count] => {
            if !is_word(head, b"undecided") {
                return None;
            }
            if !is_word(second, b"count") {
                return None;
            }
            let count = read_count(count)?;
            Some(VerdictLine::Count(count))
        }
        _ => None,
    }
}
