//! The verdicts of reports.
ghost use Rattle.std.specs.Prelude.{◌≡◌, ◌++◌, OnOk};
ghost use Rattle.report_text.specs.WrittenReports.{text_of, verdict_lines, stuck_lines};

use crate::cell::write_cell;
use crate::line::{write_cell_count, write_line};
use crate::state::write_state;
use crate::tree::write_tree;
use byte_edge::NoMemory;
use object_index::ObjectIndex;
use report_lines::Grid;
use rule_types::Rules;
use verdict_meaning::{Stuck, Verdict};

/// Writes the lines of a verdict behind a text.
#[tactic(auto, unfolding(crate::specs::WrittenReports::text_of))]
pub(crate) fn write_verdict(
    out: &mut Vec<u8>,
    rules: &Rules,
    objects: &ObjectIndex,
    grid: &Grid,
    verdict: &Verdict,
) -> Result<(), NoMemory>
    ensures { OnOk result (out.new.items ≡ out.old.items
        ++ text_of (verdict_lines rules.now objects.now grid.now verdict.now)) }
{
    match verdict {
        Verdict::Holds(tree) => {
            write_line(out, b"holds")?;
            write_tree(out, objects, tree)
        }
        Verdict::Refuted(state) => {
            write_line(out, b"refuted")?;
            write_state(out, rules, objects, grid, state)
        }
        Verdict::Undecided(why) => write_stuck(out, objects, why),
    }
}

/// Writes the lines of a question that stays undecided.
#[tactic(auto, unfolding(crate::specs::WrittenReports::text_of))]
fn write_stuck(out: &mut Vec<u8>, objects: &ObjectIndex, why: &Stuck) -> Result<(), NoMemory>
    ensures { OnOk result (out.new.items ≡ out.old.items
        ++ text_of (stuck_lines objects.now why.now)) }
{
    match why {
        Stuck::Cell(cell) => {
            write_line(out, b"undecided cell")?;
            write_cell(out, objects, cell)
        }
        Stuck::TooManyCells(count) => write_cell_count(out, *count),
    }
}
