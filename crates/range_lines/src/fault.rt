//! Faults of a ranges file.
ghost use Rattle.std.specs.Prelude.{◌≡◌, ◌++◌, OnOk};
ghost use Rattle.range_lines.specs.Causes.{cause_number, cause_name, cause_text, fault_text};
ghost use Rattle.range_lines.specs.Causes.{place_text, named_text};

use byte_edge::NoMemory;
use key_words::write_key;
use object_index::ObjectIndex;
use rule_types::Key;

/// Why a ranges file is refused.
#[derive(Clone, Copy, Debug, PartialEq, Eq)]
pub enum RangeCause {
    /// A line is too long, has a control byte, has none of the forms, or states a number, a moment
    /// or a step that it may not.
    BadLine,
    /// A name, a rule's id or an attribute finds nothing that the line can speak of.
    UnknownKey,
    /// The first end of a range lies above the second.
    EmptyRange,
    /// A key that the rules read has no range.
    MissingRange,
    /// The rules read the clock or a series, and there are no moments.
    MissingMoment,
    /// A key, MOMENT or STEP is stated again.
    Duplicate,
}

/// Why a ranges file gives no ranges.
#[derive(Clone, Copy, Debug, PartialEq, Eq)]
pub enum RangeEnd {
    /// The first fault: its line, from 1, unless the file as a whole is at fault; and of
    /// MissingRange the key.
    Fault {
        line: Option<u64>,
        cause: RangeCause,
        key: Option<Key>,
    },
    /// There was no memory.
    NoMemory,
}

impl RangeCause {
    /// The number of the cause.
    pub fn number(self) -> u8
        ensures value { result ≡ cause_number self }
    {
        match self {
            RangeCause::BadLine => 1,
            RangeCause::UnknownKey => 2,
            RangeCause::EmptyRange => 3,
            RangeCause::MissingRange => 4,
            RangeCause::MissingMoment => 5,
            RangeCause::Duplicate => 6,
        }
    }

    /// The name of the cause.
    pub fn name(self) -> &'static [u8]
        ensures value { result.now ≡ cause_name self }
    {
        match self {
            RangeCause::BadLine => b"BadLine",
            RangeCause::UnknownKey => b"UnknownKey",
            RangeCause::EmptyRange => b"EmptyRange",
            RangeCause::MissingRange => b"MissingRange",
            RangeCause::MissingMoment => b"MissingMoment",
            RangeCause::Duplicate => b"Duplicate",
        }
    }
}

/// Writes the report of a fault behind a text: `error: ranges line L: Cause (N)` of a line, else
/// `error: ranges: Cause (N)`, and with a key `: KEY` behind it. NoMemory only where memory is
/// wanting, and then nothing is said of what was written.
pub fn write_fault(
    out: &mut Vec<u8>,
    objects: &ObjectIndex,
    line: Option<u64>,
    cause: RangeCause,
    key: Option<Key>,
) -> Result<(), NoMemory>
    ensures text { OnOk result (out.new.items ≡ out.old.items
        ++ fault_text objects.now (record { line = line; cause = cause; key = key })) }
{
    out.extend_from_slice(b"error: ranges")?;
    write_place(out, line)?;
    write_cause(out, cause)?;
    write_named(out, objects, key)
}

/// Writes the place of a fault behind a text.
fn write_place(out: &mut Vec<u8>, line: Option<u64>) -> Result<(), NoMemory>
    ensures { OnOk result (out.new.items ≡ out.old.items ++ place_text line) }
{
    let Some(line) = line else {
        out.extend_from_slice(b": ")?;
        return Ok(());
    };
    let number = line.to_string(*out.allocator())?;
    out.extend_from_slice(b" line ")?;
    out.extend_from_slice(number.as_bytes())?;
    out.extend_from_slice(b": ")?;
    Ok(())
}

/// Writes the name and the number of a cause behind a text.
fn write_cause(out: &mut Vec<u8>, cause: RangeCause) -> Result<(), NoMemory>
    ensures { OnOk result (out.new.items ≡ out.old.items ++ cause_text cause) }
{
    let number = cause.number().to_string(*out.allocator())?;
    out.extend_from_slice(cause.name())?;
    out.extend_from_slice(b" (")?;
    out.extend_from_slice(number.as_bytes())?;
    out.extend_from_slice(b")")?;
    Ok(())
}

/// Writes the key of a fault behind a text.
fn write_named(out: &mut Vec<u8>, objects: &ObjectIndex, key: Option<Key>) -> Result<(), NoMemory>
    ensures { OnOk result (out.new.items ≡ out.old.items ++ named_text objects.now key) }
{
    let Some(key) = key else {
        return Ok(());
    };
    out.extend_from_slice(b": ")?;
    write_key(out, objects, &key)
}
