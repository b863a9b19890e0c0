//! The record of a line.
ghost use Rattle.std.specs.Prelude.{◌≡◌, ◌∷◌, ◌<◌, ◌≤◌, ◌+◌, ◌==◌, true, if◌then◌else◌};
ghost use Rattle.std.specs.Prelude.{IfOk, IfSome, option_map, length};
ghost use Rattle.std.specs.List.{list_all, position};
ghost use Rattle.csv.specs.Records.{fields_of};
ghost use Rattle.trace_csv.specs.Fields.{first_field as first_of_fields};
ghost use Rattle.trace_csv.specs.Records.{record_of, comma, is_plain};
ghost use Rattle.trace_csv.specs.Records.{is_plain_line as plain_line, cut_at_commas};
ghost use Rattle.trace_csv.specs.internal.Filling.{cut_behind, is_plain_behind};

use byte_edge::NoMemory;
use csv::{ByteRecord, ReaderBuilder};
use std::alloc::Global;

/// The first record of a line, or None where it has none.
#[tactic(auto, unfolding(crate::specs::Records::record_of))]
pub(crate) fn record_in(alloc: Global, line: &[u8]) -> Result<Option<ByteRecord>, NoMemory>
    ensures { IfOk result (λ found. option_map fields_of found ≡ record_of line.now) }
{
    let mut reader = ReaderBuilder::new()
        .has_headers(false)
        .from_reader(alloc, line);
    let mut record = ByteRecord::new(alloc);
    match reader.read_byte_record(&mut record) {
        Ok(true) => Ok(Some(record)),
        Ok(false) => Ok(None),
        Err(_) => Err(NoMemory),
    }
}

/// The first field of a record.
#[tactic(auto, using(crate::proofs::RecordFields::first_some, crate::proofs::RecordFields::first_none))]
pub(crate) fn first_field(row: &ByteRecord) -> &[u8]
    ensures { result.now ≡ first_of_fields (fields_of row.now) }
{
    match row.get(0) {
        Some(field) => field,
        None => b"",
    }
}

/// The number of commas of a line whose record is the line cut at its commas: it has a byte, no
/// double quote, no CR and no LF, and does not begin as a byte order mark does. None for all other
/// lines.
pub(crate) fn plain_commas(line: &[u8]) -> Option<usize>
    ensures plain { IfSome result (λ commas. plain_line line.now ≡ true) }
    ensures count { IfSome result (λ commas. length (cut_at_commas line.now) ≡ 1 + commas) }
{
    if line.is_empty() {
        return None;
    }
    if line[0] == 239 {
        return None;
    }
    commas_of_plain(line)
}

/// The number of commas of a text without a double quote, CR and LF. None for all other texts.
fn commas_of_plain(text: &[u8]) -> Option<usize>
    ensures plain { IfSome result (λ commas. list_all is_plain text.now ≡ true) }
    ensures count { IfSome result (λ commas. length (cut_at_commas text.now) ≡ 1 + commas) }
{
    let mut count: usize = 0;
    for byte in text {
        count += commas_in(*byte)?;
    }
    Some(count)
}

/// How many commas a byte is. None where it is a double quote, CR or LF.
fn commas_in(byte: u8) -> Option<usize>
    ensures plain { IfSome result (λ commas. is_plain byte ≡ true) }
    ensures count { IfSome result (λ commas. commas ≡ (if byte == comma then 1 else 0)) }
    ensures most { IfSome result (λ commas. commas ≤ 1) }
{
    if byte > b',' {
        return Some(0);
    }
    if byte == b',' {
        return Some(1);
    }
    if byte == b'"' {
        return None;
    }
    if byte == b'\r' {
        return None;
    }
    if byte == b'\n' {
        return None;
    }
    Some(0)
}

/// The first field of a text that is cut at its commas, and the text behind the comma at its end,
/// if it has one.
#[derive(Clone, Copy)]
pub(crate) struct Cut<'a> {
    pub(crate) field: &'a [u8],
    pub(crate) behind: Option<&'a [u8]>,
}

/// Cuts the first field off a text.
pub(crate) fn next_field(text: &[u8]) -> Cut<'_>
    ensures { cut_at_commas text.now
        ≡ result.field.now ∷ cut_behind (option_map (λ rest. rest.now) result.behind) }
{
    match comma_at(text) {
        Some(at) => Cut {
            field: &text[..at],
            behind: Some(&text[at + 1..]),
        },
        None => Cut {
            field: text,
            behind: None,
        },
    }
}

/// The same, where the field has no double quote, CR and LF, so that the text has none if what stands
/// behind the field has none. None for all other texts. It reads each byte once.
pub(crate) fn next_plain_field(text: &[u8]) -> Option<Cut<'_>>
    ensures cut { IfSome result (λ cut. cut_at_commas text.now
        ≡ cut.field.now ∷ cut_behind (option_map (λ rest. rest.now) cut.behind)) }
    ensures plain { IfSome result (λ cut.
        is_plain_behind (option_map (λ rest. rest.now) cut.behind) ≡ true
        → list_all is_plain text.now ≡ true) }
{
    for (at, byte) in text.iter().enumerate() {
        if commas_in(*byte)? == 1 {
            return Some(Cut {
                field: &text[..at],
                behind: Some(&text[at + 1..]),
            });
        }
    }
    Some(Cut {
        field: text,
        behind: None,
    })
}

/// The place of the first comma.
fn comma_at(text: &[u8]) -> Option<usize>
    ensures value { result ≡ position (λ byte. byte == comma) text.now }
    ensures within { IfSome result (λ at. at < length text.now) }
{
    text.iter().position(|byte| *byte == b',')
}
