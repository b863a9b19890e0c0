//! Faults of a report.
ghost use Rattle.std.specs.Prelude.{◌≡◌, ◌++◌, OnOk};
ghost use Rattle.std.specs.Fmt.{decimal};
ghost use Rattle.report_lines.specs.Words.{shape_text};

use byte_edge::NoMemory;

/// Why a report, or a part of it, is not read.
#[derive(Clone, Copy, Debug, PartialEq, Eq)]
pub enum ReportEnd {
    /// This line, from 1, has not the form that a report has there; where the report ends too early
    /// it is the line behind its last.
    Shape(u64),
    /// There was no memory.
    NoMemory,
}

/// Writes the report of a line that has not its form behind a text: `error: report line L: Shape
/// (1)`. NoMemory only where memory is wanting, and then nothing is said of what was written.
pub fn write_fault(out: &mut Vec<u8>, line: u64) -> Result<(), NoMemory>
    ensures text { OnOk result (out.new.items ≡ out.old.items ++ shape_text line) }
{
    out.extend_from_slice(b"error: report line ")?;
    write_number(out, line)?;
    out.extend_from_slice(b": Shape (1)")?;
    Ok(())
}

/// Writes a number behind a text.
fn write_number(out: &mut Vec<u8>, number: u64) -> Result<(), NoMemory>
    ensures { OnOk result (out.new.items ≡ out.old.items ++ decimal number) }
{
    let digits = number.to_string(*out.allocator())?;
    out.extend_from_slice(digits.as_bytes())?;
    Ok(())
}
