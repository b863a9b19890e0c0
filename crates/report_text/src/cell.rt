//! The cells of reports.
ghost use Rattle.std.specs.Prelude.{◌≡◌, ◌++◌, OnOk};
ghost use Rattle.std.specs.List.{flat_map};
ghost use Rattle.report_text.specs.WrittenReports.{text_of, span_lines, cell_lines};
ghost use Rattle.report_text.specs.internal.RowTexts.{piece_text};

use crate::line::{write_key_piece, write_span};
use byte_edge::NoMemory;
use exact_fraction::moment::Moment;
use interval_sets::Interval;
use object_index::ObjectIndex;
use rule_types::Key;
use verdict_meaning::Cell;

/// Writes the lines of a cell behind a text.
#[tactic(auto, unfolding(crate::specs::WrittenReports::cell_lines))]
pub(crate) fn write_cell(
    out: &mut Vec<u8>,
    objects: &ObjectIndex,
    cell: &Cell,
) -> Result<(), NoMemory>
    ensures { OnOk result (out.new.items ≡ out.old.items
        ++ text_of (cell_lines objects.now cell.now)) }
{
    write_pieces(out, objects, cell.keys.as_slice())?;
    write_moments(out, &cell.moments)
}

/// Writes the lines of the pieces of keys.
fn write_pieces(
    out: &mut Vec<u8>,
    objects: &ObjectIndex,
    pieces: &[(Key, Interval)],
) -> Result<(), NoMemory>
    ensures { OnOk result (out.new.items ≡ out.old.items
        ++ flat_map (piece_text objects.now) pieces.now) }
{
    for entry in pieces {
        write_key_piece(out, objects, &entry.0, &entry.1)?;
    }
    Ok(())
}

/// Writes the line of the moments, where there are some.
#[tactic(auto, unfolding(crate::specs::WrittenReports::text_of))]
fn write_moments(out: &mut Vec<u8>, moments: &Option<(Moment, Moment)>) -> Result<(), NoMemory>
    ensures { OnOk result (out.new.items ≡ out.old.items ++ text_of (span_lines moments.now)) }
{
    match moments {
        Some((first, last)) => write_span(out, first, last),
        None => Ok(()),
    }
}
