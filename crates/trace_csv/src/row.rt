//! The rows of records.
ghost use Rattle.std.specs.Prelude.{◌≡◌, ◌∷◌, ◌+◌, true, false, None, Some};
ghost use Rattle.std.specs.Prelude.{length, replicate, option_map, All, IfOk, IfSome, Ok};
ghost use Rattle.csv.specs.Records.{fields_of};
ghost use Rattle.trace_csv.specs.Columns.{has_duplicate};
ghost use Rattle.trace_csv.specs.Records.{cut_at_commas, is_plain_line};
ghost use Rattle.trace_csv.specs.Rows.{row_at, row_in};
ghost use Rattle.trace_csv.specs.internal.Filling.{Within, cut_behind, row_with};

use crate::fault::TraceCause;
use crate::fill::{fill_from_plain, fill_from_record, fill_from_text};
use crate::record::{first_field, next_field};
use crate::row_moment::{behind_moment, checked, moment_in};
use crate::written_moment::WrittenMoment;
use csv::ByteRecord;
use exact_fraction::frac::Frac;
use exact_fraction::moment::Moment;

/// The row of a line that is cut at its commas, of which there are so many, under these columns.
/// `written` becomes its moment.
pub(crate) fn plain_row(
    columns: &[Option<usize>],
    line: &[u8],
    commas: usize,
    last: &Option<Moment>,
    start: &Option<Moment>,
    written: &mut WrittenMoment,
    inputs: &mut [Option<Frac>],
) -> Result<Moment, TraceCause>
    requires within { All (Within (length inputs.old)) columns.now }
    requires single { has_duplicate columns.now ≡ false }
    requires counted { length (cut_at_commas line.now) ≡ 1 + commas }
    ensures row { row_with inputs.new result
        ≡ row_in (record { columns = columns.now; inputs = length inputs.old })
        last.now start.now (cut_at_commas line.now) }
    ensures written { IfOk result (λ moment. written.new ≡ moment) }
{
    if commas != columns.len() {
        return Err(TraceCause::FieldCount);
    }
    let cut = next_field(line);
    let moment = moment_in(cut.field, last, start, written);
    row_behind(columns, moment, cut.behind, inputs)
}

/// The same of a line that begins with the text of a moment in the same day as `written`, has no
/// double quote, no CR and no LF, and a field for each column, none of them bad. None for all other
/// lines.
pub(crate) fn quick_row(
    columns: &[Option<usize>],
    line: &[u8],
    last: &Option<Moment>,
    start: &Option<Moment>,
    written: &mut WrittenMoment,
    inputs: &mut [Option<Frac>],
) -> Option<Result<Moment, TraceCause>>
    requires within { All (Within (length inputs.old)) columns.now }
    requires single { has_duplicate columns.now ≡ false }
    ensures plain { IfSome result (λ row. is_plain_line line.now ≡ true) }
    ensures row { IfSome result (λ row. row_with inputs.new row
        ≡ row_in (record { columns = columns.now; inputs = length inputs.old })
        last.now start.now (cut_at_commas line.now)) }
    ensures written { IfSome result (λ row. IfOk row (λ moment. written.new ≡ moment)) }
    ensures long { length inputs.new ≡ length inputs.old }
{
    let behind = behind_moment(line, written)?;
    clear(inputs);
    if !fill_from_plain(columns, behind, inputs) {
        return None;
    }
    Some(checked(written.moment(), last, start))
}

/// The row of a moment and of the text behind it, which is cut at its commas.
fn row_behind(
    columns: &[Option<usize>],
    moment: Result<Moment, TraceCause>,
    behind: Option<&[u8]>,
    inputs: &mut [Option<Frac>],
) -> Result<Moment, TraceCause>
    requires within { All (Within (length inputs.old)) columns.now }
    requires single { has_duplicate columns.now ≡ false }
    ensures row { row_with inputs.new result
        ≡ row_at (record { columns = columns.now; inputs = length inputs.old })
        (cut_behind (option_map (λ rest. rest.now) behind.entry)) moment }
    ensures same { IfOk result (λ found. moment ≡ Ok found) }
{
    let moment = match moment {
        Ok(moment) => moment,
        Err(cause) => return Err(cause),
    };
    clear(inputs);
    if !fill_from_text(columns, behind, inputs) {
        return Err(TraceCause::BadNumber);
    }
    Ok(moment)
}

/// The row of a record, under these columns. `written` becomes its moment.
pub(crate) fn record_row(
    columns: &[Option<usize>],
    row: &ByteRecord,
    last: &Option<Moment>,
    start: &Option<Moment>,
    written: &mut WrittenMoment,
    inputs: &mut [Option<Frac>],
) -> Result<Moment, TraceCause>
    requires within { All (Within (length inputs.old)) columns.now }
    requires single { has_duplicate columns.now ≡ false }
    ensures row { row_with inputs.new result
        ≡ row_in (record { columns = columns.now; inputs = length inputs.old })
        last.now start.now (fields_of row.now) }
    ensures written { IfOk result (λ moment. written.new ≡ moment) }
{
    if row.len() != columns.len() + 1 {
        return Err(TraceCause::FieldCount);
    }
    let moment = match moment_in(first_field(row), last, start, written) {
        Ok(moment) => moment,
        Err(cause) => return Err(cause),
    };
    clear(inputs);
    if !fill_from_record(columns, row, inputs) {
        return Err(TraceCause::BadNumber);
    }
    Ok(moment)
}

/// Takes every input away.
fn clear(inputs: &mut [Option<Frac>])
    ensures { inputs.new ≡ replicate (length inputs.old) None }
{
    inputs.fill(None);
}
