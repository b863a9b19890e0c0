//! The version of a report.
ghost use Rattle.std.specs.Prelude.{◌≡◌, option_map};
ghost use Rattle.std.specs.Str.{bytes_eq};
ghost use Rattle.report_lines.specs.Reports.{version_by as by_line};
ghost use Rattle.report_lines.specs.Words.{line_at};
ghost use Rattle.report_reader.specs.Answers.{version_of};

use inp_text::{LineText, Lines};

/// Whether a report has version 2, by its first line: None exactly where this is neither `report 1`
/// nor `report 2`.
#[tactic(auto, unfolding(crate::specs::Answers::version_of))]
pub fn read_version(lines: &Lines) -> Option<bool>
    ensures value { result ≡ version_of lines.now }
{
    version_by(text_at(lines, 0)?)
}

/// The version that a first line names.
#[tactic(auto, unfolding(report_lines::specs::Reports::version_by))]
fn version_by(line: &[u8]) -> Option<bool>
    ensures { result ≡ by_line line.now }
{
    if is_text(line, b"report 1") {
        return Some(false);
    }
    if is_text(line, b"report 2") {
        return Some(true);
    }
    None
}

/// The bytes of the line at a place, where there is such a line and it is not too long.
pub(crate) fn text_at(lines: &Lines, at: usize) -> Option<&[u8]>
    ensures { option_map (λ line. line.now) result ≡ line_at lines.now at }
{
    match lines.get(at) {
        Some(LineText::Text(bytes)) => Some(bytes),
        _ => None,
    }
}

/// Whether two texts are the same.
pub(crate) fn is_text(one: &[u8], other: &[u8]) -> bool
    ensures { result ≡ bytes_eq one.now other.now }
{
    one == other
}
