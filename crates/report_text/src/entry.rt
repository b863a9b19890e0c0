//! The entries of reports.
ghost use Rattle.std.specs.Prelude.{◌≡◌, ◌++◌, ◌∷◌, [], OnOk};
ghost use Rattle.report_lines.specs.Reports.{second_version, end_text};
ghost use Rattle.report_text.specs.WrittenReports.{text_of, entry_lines, entry_text};

use crate::line::{write_line, write_question};
use crate::verdict::write_verdict;
use byte_edge::NoMemory;
use object_index::ObjectIndex;
use report_lines::Grid;
use rule_types::Rules;
use verdict_meaning::{Question, Verdict};

/// Writes the first line of a report behind a text: `report 2`. NoMemory only where memory is
/// wanting, and then nothing is said of what was written.
#[tactic(auto, unfolding(crate::specs::WrittenReports::text_of))]
pub fn write_start(out: &mut Vec<u8>) -> Result<(), NoMemory>
    ensures text { OnOk result (out.new.items ≡ out.old.items ++ text_of (second_version ∷ [])) }
{
    write_line(out, b"report 2")
}

/// Writes an entry of a report behind a text: the line of the question, the line of its verdict,
/// and the lines of the tree, the state or the cell. `grid` is the question's. NoMemory only where
/// memory is wanting, and then nothing is said of what was written. It takes time by the text that
/// it writes and, for a state of well formed rules, by its inputs and links and the logarithm of
/// their number for each key of the grid, and goes down one call for each level of a tree.
#[tactic(auto, unfolding(crate::specs::WrittenReports::entry_lines))]
pub fn write_entry(
    out: &mut Vec<u8>,
    rules: &Rules,
    objects: &ObjectIndex,
    grid: &Grid,
    question: &Question,
    verdict: &Verdict,
) -> Result<(), NoMemory>
    ensures text { OnOk result (out.new.items ≡ out.old.items
        ++ entry_text rules.now objects.now grid.now question.now verdict.now) }
{
    write_question(out, objects, question)?;
    write_verdict(out, rules, objects, grid, verdict)
}

/// Writes the last line of a report behind a text: `end`. NoMemory only where memory is wanting,
/// and then nothing is said of what was written.
#[tactic(auto, unfolding(crate::specs::WrittenReports::text_of))]
pub fn write_end(out: &mut Vec<u8>) -> Result<(), NoMemory>
    ensures text { OnOk result (out.new.items ≡ out.old.items ++ text_of (end_text ∷ [])) }
{
    write_line(out, b"end")
}
