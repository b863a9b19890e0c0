//! Faults of a trace.
ghost use Rattle.std.specs.Prelude.{◌≡◌, ◌++◌, OnOk};
ghost use Rattle.trace_csv.specs.Causes.{cause_number, cause_name, cause_text, fault_text};

use byte_edge::NoMemory;

/// Why a line of a trace is refused.
#[derive(Clone, Copy, Debug, PartialEq, Eq)]
pub enum TraceCause {
    /// The trace has no record.
    NoHeader,
    /// The first field of the header is not `moment`.
    BadHeader,
    /// Two columns give one input.
    DuplicateColumn,
    /// An input of the rules has no column.
    MissingColumn,
    /// A row has another number of fields than the header.
    FieldCount,
    /// The first field of a row is no moment.
    BadMoment,
    /// The moment is not later than that of the row before.
    NotLater,
    /// The moment of the first row lies before the start.
    BeforeStart,
    /// A needed field is neither empty nor a number, or is a number that is too large.
    BadNumber,
    /// The line is too long.
    LineTooLong,
}

/// Why a line of a trace gives nothing.
#[derive(Clone, Copy, Debug, PartialEq, Eq)]
pub enum TraceEnd {
    /// The first fault of the line.
    Fault(TraceCause),
    /// There was no memory.
    NoMemory,
}

impl TraceCause {
    /// The number of the cause: on one line the cause of the least number is reported.
    pub fn number(self) -> u8
        ensures value { result ≡ cause_number self }
    {
        match self {
            TraceCause::NoHeader => 1,
            TraceCause::BadHeader => 2,
            TraceCause::DuplicateColumn => 3,
            TraceCause::MissingColumn => 4,
            TraceCause::FieldCount => 5,
            TraceCause::BadMoment => 6,
            TraceCause::NotLater => 7,
            TraceCause::BeforeStart => 8,
            TraceCause::BadNumber => 9,
            TraceCause::LineTooLong => 10,
        }
    }

    /// The name of the cause.
    pub fn name(self) -> &'static [u8]
        ensures value { result.now ≡ cause_name self }
    {
        match self {
            TraceCause::NoHeader => b"NoHeader",
            TraceCause::BadHeader => b"BadHeader",
            TraceCause::DuplicateColumn => b"DuplicateColumn",
            TraceCause::MissingColumn => b"MissingColumn",
            TraceCause::FieldCount => b"FieldCount",
            TraceCause::BadMoment => b"BadMoment",
            TraceCause::NotLater => b"NotLater",
            TraceCause::BeforeStart => b"BeforeStart",
            TraceCause::BadNumber => b"BadNumber",
            TraceCause::LineTooLong => b"LineTooLong",
        }
    }
}

/// Writes the report of a fault on a line behind a text: `error: trace line L: Cause (N)`. NoMemory
/// only where memory is wanting, and then nothing is said of what was written.
pub fn write_fault(out: &mut Vec<u8>, line: u64, cause: TraceCause) -> Result<(), NoMemory>
    ensures text { OnOk result (out.new.items ≡ out.old.items ++ fault_text line cause) }
{
    let line = line.to_string(*out.allocator())?;
    out.extend_from_slice(b"error: trace line ")?;
    out.extend_from_slice(line.as_bytes())?;
    out.extend_from_slice(b": ")?;
    write_cause(out, cause)
}

/// Writes the name and the number of a cause behind a text.
fn write_cause(out: &mut Vec<u8>, cause: TraceCause) -> Result<(), NoMemory>
    ensures { OnOk result (out.new.items ≡ out.old.items ++ cause_text cause) }
{
    let number = cause.number().to_string(*out.allocator())?;
    out.extend_from_slice(cause.name())?;
    out.extend_from_slice(b" (")?;
    out.extend_from_slice(number.as_bytes())?;
    out.extend_from_slice(b")")?;
    Ok(())
}
