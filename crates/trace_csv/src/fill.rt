//! The inputs of a row, filled in from its fields.
ghost use Rattle.std.specs.Prelude.{◌≡◌, ◌<◌, ◌+◌, ◌∷◌, ℕ, List, true, Some, Ok, length, drop, All, IfSome, IsTrue};
ghost use Rattle.std.specs.Prelude.{option_map};
ghost use Rattle.std.specs.List.{list_all};
ghost use Rattle.csv.specs.Records.{fields_of};
ghost use Rattle.trace_csv.specs.Fields.{further_fields, field_input as input_in_field};
ghost use Rattle.trace_csv.specs.Records.{cut_at_commas, is_plain};
ghost use Rattle.trace_csv.specs.internal.Filling.{Within, put_field as put, filled, where_good};
ghost use Rattle.trace_csv.specs.internal.Filling.{cut_behind, is_plain_behind};

use crate::field::field_input;
use crate::plain_number::next_number;
use crate::record::{Cut, next_field, next_plain_field};
use csv::ByteRecord;
use exact_fraction::frac::Frac;

/// Writes what the field of a column says. False where the field is bad.
fn put_field(column: &Option<usize>, field: &[u8], inputs: &mut [Option<Frac>]) -> bool
    requires within { Within (length inputs.old) column.now }
    ensures { where_good result inputs.new ≡ put column.now field.now inputs.old }
{
    let Some(place) = column else {
        return true;
    };
    let Ok(input) = field_input(field) else {
        return false;
    };
    inputs[*place] = input;
    true
}

/// Writes a number, under a column that gives an input.
fn put_number(column: &Option<usize>, number: Frac, inputs: &mut [Option<Frac>])
    requires within { Within (length inputs.old) column.now }
    ensures value { (field : List ℕ) → input_in_field field ≡ Ok (Some number)
        → Some inputs.new ≡ put column.now field inputs.old }
    ensures long { length inputs.new ≡ length inputs.old }
{
    if let Some(place) = column {
        inputs[*place] = Some(number);
    }
}

/// Writes what the fields of a text that is cut at its commas say. False where one is bad.
pub(crate) fn fill_from_text(
    columns: &[Option<usize>],
    text: Option<&[u8]>,
    inputs: &mut [Option<Frac>],
) -> bool
    requires within { All (Within (length inputs.old)) columns.now }
    ensures { where_good result inputs.new
        ≡ filled columns.now (cut_behind (option_map (λ rest. rest.now) text.entry)) inputs.old }
{
    let mut behind = text;
    for at in 0..columns.len() {
        let Some(rest) = behind else {
            return true;
        };
        let cut = next_field(rest);
        if !put_field(&columns[at], cut.field, inputs) {
            return false;
        }
        behind = cut.behind;
    }
    true
}

/// Writes what the fields of a text that is cut at its commas say, in one walk. True only where the
/// text has no double quote, no CR and no LF and has a field for each column, none of them bad; else
/// nothing is said of what was written.
pub(crate) fn fill_from_plain(
    columns: &[Option<usize>],
    text: &[u8],
    inputs: &mut [Option<Frac>],
) -> bool
    requires within { All (Within (length inputs.old)) columns.now }
    ensures plain { IsTrue result → list_all is_plain text.now ≡ true }
    ensures count { IsTrue result → length (cut_at_commas text.now) ≡ length columns.now }
    ensures filled { IsTrue result
        → Some inputs.new ≡ filled columns.now (cut_at_commas text.now) inputs.old }
    ensures long { length inputs.new ≡ length inputs.old }
{
    let mut behind = Some(text);
    for at in 0..columns.len() {
        let Some(rest) = behind else {
            return false;
        };
        let Some(cut) = put_first(&columns[at], rest, inputs) else {
            return false;
        };
        behind = cut.behind;
    }
    behind.is_none()
}

/// Writes what the first field of a text says, and cuts it off. None where it has a double quote,
/// CR or LF, or is bad; then nothing is said of what was written. A plain number is read in the
/// walk to its comma.
fn put_first<'a>(
    column: &Option<usize>,
    text: &'a [u8],
    inputs: &mut [Option<Frac>],
) -> Option<Cut<'a>>
    requires within { Within (length inputs.old) column.now }
    ensures cut { IfSome result (λ cut. cut_at_commas text.now
        ≡ cut.field.now ∷ cut_behind (option_map (λ rest. rest.now) cut.behind)) }
    ensures plain { IfSome result (λ cut.
        is_plain_behind (option_map (λ rest. rest.now) cut.behind) ≡ true
        → list_all is_plain text.now ≡ true) }
    ensures put { IfSome result (λ cut.
        Some inputs.new ≡ put column.now cut.field.now inputs.old) }
    ensures long { length inputs.new ≡ length inputs.old }
{
    if let Some(found) = next_number(text) {
        put_number(column, found.number, inputs);
        return Some(found.cut);
    }
    let cut = next_plain_field(text)?;
    if !put_field(column, cut.field, inputs) {
        return None;
    }
    Some(cut)
}

/// Writes what the fields of a record behind its first say. False where one is bad.
pub(crate) fn fill_from_record(
    columns: &[Option<usize>],
    row: &ByteRecord,
    inputs: &mut [Option<Frac>],
) -> bool
    requires within { All (Within (length inputs.old)) columns.now }
    ensures { where_good result inputs.new
        ≡ filled columns.now (further_fields (fields_of row.now)) inputs.old }
{
    for at in 0..columns.len() {
        let Some(field) = row.get(at + 1) else {
            return true;
        };
        if !put_field(&columns[at], field, inputs) {
            return false;
        }
    }
    true
}
