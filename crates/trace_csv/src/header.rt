//! The header of a trace, and its rows.
ghost use Rattle.std.specs.Prelude.{◌≡◌, length, codes, IfOk, IfSome, All};
ghost use Rattle.std.specs.Str.{str_eq_ignore_ascii_case};
ghost use Rattle.csv.specs.Records.{fields_of};
ghost use Rattle.rule_types.specs.KeyOrder.{IsInKeyOrder};
ghost use Rattle.rule_types.specs.WellFormed.{InOrder};
ghost use Rattle.trace_csv.specs.Causes.{Answers};
ghost use Rattle.trace_csv.specs.Columns.{header_in as header_of_fields, header_of, when_read};
ghost use Rattle.trace_csv.specs.Columns.{checked_columns as checked};
ghost use Rattle.trace_csv.specs.Rows.{row_of};
ghost use Rattle.trace_csv.specs.internal.Filling.{Within, answer_with, end_of};
ghost use Rattle.trace_csv.specs.internal.Marking.{fault_of_columns};

use crate::columns::{are_marked, column_inputs, marks_twice};
use crate::fault::{TraceCause, TraceEnd};
use crate::field::trimmed;
use crate::record::{first_field, plain_commas, record_in};
use crate::row::{plain_row, quick_row, record_row};
use crate::written_moment::WrittenMoment;
use byte_edge::NoMemory;
use csv::ByteRecord;
use exact_fraction::frac::Frac;
use exact_fraction::moment::Moment;
use list_types::Items;
use object_index::ObjectIndex;
use rule_types::{Key, Row, Rules};
use std::alloc::Global;
use std::marker::Model;

/// The header of a trace: for each column behind the first the place of the input that it gives.
#[derive(Drop)]
pub struct Header {
    columns: Vec<Option<usize>>,
    inputs: usize,
}

impl Model for Header {
    ghost use Rattle.std.specs.Prelude.{◌≡◌, false, All};
    ghost use Rattle.trace_csv.specs.Columns.{Columns, has_duplicate};
    ghost use Rattle.trace_csv.specs.internal.Filling.{Within};

    ghost Value = { Columns };

    ghost view = { λ header. record { columns = header.columns.items; inputs = header.inputs } };

    ghost invariant = { λ header. All (Within header.inputs) header.columns.items
        × (has_duplicate header.columns.items ≡ false) };
}

impl Header {
    /// The header that a line is, for these rules over these objects: None where the line has no
    /// record, Fault with the first of BadHeader, DuplicateColumn and MissingColumn that the line
    /// has, NoMemory only where memory is wanting. It takes time in proportion to the line, and for
    /// each column to the logarithm of the numbers of objects and of input keys.
    pub fn read(
        alloc: Global,
        line: &[u8],
        rules: &Rules,
        objects: &ObjectIndex,
    ) -> Result<Option<Header>, TraceEnd>
        requires in_order { InOrder rules.now }
        ensures answer { Answers result (header_of rules.now.input_keys objects.now line.now) }
    {
        read_header(alloc, line, rules.input_keys.as_slice(), objects)
    }

    /// How many inputs a row has: as many as the rules have input keys.
    pub fn input_count(&self) -> usize
        ensures value { result ≡ self.now.inputs }
    {
        self.inputs
    }

    /// The row that a line is, where the row before has the moment `last`, None for the first
    /// row, and `start` is the start of the rules, None where they have none. None where the line
    /// has no record, Fault with the first of FieldCount, BadMoment, NotLater, BeforeStart and
    /// BadNumber that the line has, NoMemory only where memory is wanting. It takes memory for
    /// the inputs, and what `read_row` takes.
    pub fn row(
        &self,
        alloc: Global,
        line: &[u8],
        last: &Option<Moment>,
        start: &Option<Moment>,
    ) -> Result<Option<Row>, TraceEnd>
        ensures answer { Answers result (row_of self.now last.now start.now line.now) }
    {
        let Ok(mut inputs) = vec![in alloc; None; self.inputs] else {
            return Err(TraceEnd::NoMemory);
        };
        match self.read_row(alloc, line, last, start, &mut inputs) {
            Ok(Some(moment)) => Ok(Some(Row {
                moment,
                inputs: Items::from_vec(inputs),
            })),
            Ok(None) => Ok(None),
            Err(end) => Err(end),
        }
    }

    /// The same, but that the moment alone is returned and the inputs are written into `inputs`.
    /// It takes memory only where the line has a double quote or a CR, begins with a byte order
    /// mark or is empty. Where there is no row, nothing is said of what `inputs` holds.
    pub fn read_row(
        &self,
        alloc: Global,
        line: &[u8],
        last: &Option<Moment>,
        start: &Option<Moment>,
        inputs: &mut [Option<Frac>],
    ) -> Result<Option<Moment>, TraceEnd>
        requires one_each { length inputs.old ≡ self.now.inputs }
        ensures answer { Answers (answer_with inputs.new result)
            (row_of self.now last.now start.now line.now) }
    {
        let mut written = WrittenMoment::epoch();
        self.read_next_row(alloc, line, last, start, &mut written, inputs)
    }

    /// The same, but that `written` becomes the moment too. It costs less where the line has its
    /// moment as it is written, `YYYY-MM-DDThh:mm:ss`, and `written` is a moment of the same day,
    /// as that of the row before mostly is.
    #[tactic(auto, unfolding(crate::specs::Rows::row_of))]
    pub fn read_next_row(
        &self,
        alloc: Global,
        line: &[u8],
        last: &Option<Moment>,
        start: &Option<Moment>,
        written: &mut WrittenMoment,
        inputs: &mut [Option<Frac>],
    ) -> Result<Option<Moment>, TraceEnd>
        requires one_each { length inputs.old ≡ self.now.inputs }
        ensures answer { Answers (answer_with inputs.new result)
            (row_of self.now last.now start.now line.now) }
        ensures written { IfOk result (λ row. IfSome row (λ moment. written.new ≡ moment)) }
    {
        let columns = self.columns.as_slice();
        if let Some(row) = quick_row(columns, line, last, start, written, inputs) {
            return row_end(row);
        }
        if let Some(commas) = plain_commas(line) {
            let row = plain_row(columns, line, commas, last, start, written, inputs);
            return row_end(row);
        }
        match record_in(alloc, line) {
            Ok(Some(record)) => row_end(record_row(columns, &record, last, start, written, inputs)),
            Ok(None) => Ok(None),
            Err(_) => Err(TraceEnd::NoMemory),
        }
    }
}

/// The answer for a row that was read or has a fault.
fn row_end(row: Result<Moment, TraceCause>) -> Result<Option<Moment>, TraceEnd>
    ensures { result ≡ end_of row }
{
    match row {
        Ok(moment) => Ok(Some(moment)),
        Err(cause) => Err(TraceEnd::Fault(cause)),
    }
}

/// The header that a line is, for these input keys.
#[tactic(auto, unfolding(crate::specs::Columns::header_of))]
fn read_header(
    alloc: Global,
    line: &[u8],
    keys: &[Key],
    objects: &ObjectIndex,
) -> Result<Option<Header>, TraceEnd>
    requires in_order { IsInKeyOrder keys.now }
    ensures { Answers result (header_of keys.now objects.now line.now) }
{
    match record_in(alloc, line) {
        Ok(Some(record)) => header_in(alloc, &record, keys, objects),
        Ok(None) => Ok(None),
        Err(_) => Err(TraceEnd::NoMemory),
    }
}

/// The header that a record is.
#[tactic(auto, unfolding(crate::specs::Columns::header_in))]
fn header_in(
    alloc: Global,
    row: &ByteRecord,
    keys: &[Key],
    objects: &ObjectIndex,
) -> Result<Option<Header>, TraceEnd>
    requires in_order { IsInKeyOrder keys.now }
    ensures { Answers result
        (when_read (header_of_fields keys.now objects.now (fields_of row.now))) }
{
    if !is_moment_word(trimmed(first_field(row))) {
        return Err(TraceEnd::Fault(TraceCause::BadHeader));
    }
    let Ok(columns) = column_inputs(alloc, row, keys, objects) else {
        return Err(TraceEnd::NoMemory);
    };
    checked_columns(alloc, columns, keys.len())
}

/// Whether a text is the word `moment`, in any case.
fn is_moment_word(text: &[u8]) -> bool
    ensures { result ≡ str_eq_ignore_ascii_case text.now (codes "moment") }
{
    text.eq_ignore_ascii_case(b"moment")
}

/// The header of these columns, if no input is given twice and each is given.
fn checked_columns(
    alloc: Global,
    columns: Vec<Option<usize>>,
    inputs: usize,
) -> Result<Option<Header>, TraceEnd>
    requires within { All (Within inputs) columns.items }
    ensures { Answers result (when_read (checked columns.items inputs)) }
{
    match columns_fault(alloc, columns.as_slice(), inputs) {
        Ok(None) => Ok(Some(Header { columns, inputs })),
        Ok(Some(cause)) => Err(TraceEnd::Fault(cause)),
        Err(_) => Err(TraceEnd::NoMemory),
    }
}

/// The first fault of columns, if they have one.
fn columns_fault(
    alloc: Global,
    columns: &[Option<usize>],
    inputs: usize,
) -> Result<Option<TraceCause>, NoMemory>
    requires within { All (Within inputs) columns.now }
    ensures { IfOk result (λ fault. fault ≡ fault_of_columns columns.now inputs) }
{
    let mut given = vec![in alloc; false; inputs]?;
    Ok(fault_by_marks(columns, &mut given))
}

/// The same, where there is a mark for each input.
fn fault_by_marks(columns: &[Option<usize>], given: &mut [bool]) -> Option<TraceCause>
    requires within { All (Within (length given.old)) columns.now }
    ensures { result ≡ fault_of_columns columns.now (length given.old) }
{
    if marks_twice(columns, given) {
        return Some(TraceCause::DuplicateColumn);
    }
    if !are_marked(given) {
        return Some(TraceCause::MissingColumn);
    }
    None
}
