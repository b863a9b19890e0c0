//! Words of the lines on standard error.
ghost use Rattle.std.specs.Prelude.{◌≡◌, ◌++◌, OnOk};
ghost use Rattle.std.specs.Fmt.{decimal};
ghost use Rattle.command_outputs.specs.Messages.{place_text, stop_word, branch_word};

use byte_edge::NoMemory;
use std::alloc::Global;

/// What a refusal speaks of. Lines are counted from 1.
#[derive(Clone, Copy, Debug, PartialEq, Eq)]
pub enum Place {
    /// A line of the input file.
    InputLine(u64),
    /// A line of the trace; 0 where the trace has no line to name.
    TraceLine(u64),
    /// A line of the ranges.
    RangesLine(u64),
    /// The ranges as a whole.
    Ranges,
    /// A line of the report.
    ReportLine(u64),
    /// A line of the rules that are printed.
    PrintedLine(u64),
    /// The word that names a link.
    Link,
    /// The word that numbers a row.
    Row,
}

/// Why a row of a replay stops.
#[derive(Clone, Copy, Debug, PartialEq, Eq)]
pub enum StopWord {
    /// A result does not fit.
    Overflow,
    /// A divisor is 0.
    ZeroDivisor,
}

/// A branch of a rule.
#[derive(Clone, Copy, Debug, PartialEq, Eq)]
pub enum BranchWord {
    Then,
    Else,
}

impl Place {
    /// Adds the words of the place to a text.
    pub fn push_to(self, alloc: Global, text: &mut Vec<u8>) -> Result<(), NoMemory>
        ensures value { OnOk result (text.new.items ≡ text.old.items ++ place_text self) }
    {
        match self {
            Place::InputLine(line) => push_numbered(alloc, text, b"input line ", line),
            Place::TraceLine(line) => push_numbered(alloc, text, b"trace line ", line),
            Place::RangesLine(line) => push_numbered(alloc, text, b"ranges line ", line),
            Place::Ranges => push_words(text, b"ranges"),
            Place::ReportLine(line) => push_numbered(alloc, text, b"report line ", line),
            Place::PrintedLine(line) => push_numbered(alloc, text, b"printed line ", line),
            Place::Link => push_words(text, b"link"),
            Place::Row => push_words(text, b"row"),
        }
    }
}

impl StopWord {
    /// The word as it is written.
    pub fn text(self) -> &'static [u8]
        ensures value { result.now ≡ stop_word self }
    {
        match self {
            StopWord::Overflow => b"Overflow",
            StopWord::ZeroDivisor => b"ZeroDivisor",
        }
    }
}

impl BranchWord {
    /// The word as it is written.
    pub fn text(self) -> &'static [u8]
        ensures value { result.now ≡ branch_word self }
    {
        match self {
            BranchWord::Then => b"then",
            BranchWord::Else => b"else",
        }
    }
}

/// Adds words to a text.
pub fn push_words(text: &mut Vec<u8>, words: &[u8]) -> Result<(), NoMemory>
    ensures value { OnOk result (text.new.items ≡ text.old.items ++ words.now) }
{
    text.extend_from_slice(words)?;
    Ok(())
}

/// Adds words and a number to a text.
pub fn push_numbered(
    alloc: Global,
    text: &mut Vec<u8>,
    words: &[u8],
    number: u64,
) -> Result<(), NoMemory>
    ensures value { OnOk result
        (text.new.items ≡ text.old.items ++ (words.now ++ decimal number)) }
{
    let digits = number.to_string(alloc)?;
    text.extend_from_slice(words)?;
    text.extend_from_slice(digits.as_bytes())?;
    Ok(())
}
