//! Refusals of an input file.
ghost use Rattle.std.specs.Prelude.{◌≡◌, IfOk};
ghost use Rattle.rule_types.specs.Refusals.{earlier};

use byte_edge::NoMemory;
use list_types::Bytes;
use std::alloc::Global;

/// Why a line of the input file is refused. On one line the causes are looked for in this order,
/// and numbered in it from 1.
#[derive(Clone, Copy, Debug, PartialEq, Eq)]
pub enum Cause {
    LineTooLong,
    BadText,
    BadOption,
    DuplicateName,
    BadCurve,
    BadSeries,
    BadClause,
    ClauseOrder,
    UnknownObject,
    WrongKind,
    UnknownAttribute,
    WrongValue,
    UnknownName,
    ReservedName,
    OutsideFunction,
    BadExpression,
    NumberTooLarge,
    UnknownTable,
    FileSeries,
    RuleStep,
    TooMany,
}

impl Cause {
    ghost use Rattle.rule_types.specs.Causes.{cause_number};

    /// The number of a cause, from 1: on one line the cause of the least number is reported.
    pub fn number(self) -> u8
        ensures value { result ≡ cause_number self }
    {
        self as u8 + 1
    }
}

/// The refusal of an input file.
#[derive(Debug, Drop, PartialEq, Eq)]
pub struct Refusal {
    /// The line, counted from 1.
    pub line: u64,
    pub cause: Cause,
    /// The bytes that are at fault, as written; empty where the whole line is.
    pub token: Bytes,
}

impl Refusal {
    ghost use Rattle.rule_types.specs.Refusals.{goes_before as is_before, lower as lower_of};

    /// The refusal of a line, with a copy of the bytes at fault: NoMemory only where memory is out.
    pub fn new(alloc: Global, line: u64, cause: Cause, token: &[u8]) -> Result<Refusal, NoMemory>
        ensures value { IfOk result (λ refusal. refusal
            ≡ record { line = line; cause = cause; token = token.now }) }
    {
        let mut copy = Vec::new(alloc);
        if copy.extend_from_slice(token).is_err() {
            return Err(NoMemory);
        }
        Ok(Refusal {
            line,
            cause,
            token: Bytes::from_vec(copy),
        })
    }

    /// Whether this refusal goes before the other: it is on a lower line, or on the same line with
    /// a cause of a lower number.
    #[tactic(auto, unfolding(crate::specs::Refusals::goes_before))]
    pub fn goes_before(&self, other: &Refusal) -> bool
        ensures value { result ≡ is_before self.now other.now }
    {
        if self.line == other.line {
            return self.cause.number() < other.cause.number();
        }
        self.line < other.line
    }

    /// The lower of two refusals: the one that goes before the other, and this one where neither
    /// does.
    #[tactic(auto, unfolding(crate::specs::Refusals::lower))]
    pub fn lower(self, other: Refusal) -> Refusal
        ensures value { result ≡ lower_of self other }
    {
        if other.goes_before(&self) {
            other
        } else {
            self
        }
    }
}

/// The refusal that is reported where there may be two: the lower one of those that there are.
#[tactic(auto, unfolding(crate::specs::Refusals::earlier))]
pub fn earlier_refusal(one: Option<Refusal>, other: Option<Refusal>) -> Option<Refusal>
    ensures value { result ≡ earlier one other }
{
    match (one, other) {
        (Some(first), Some(second)) => Some(first.lower(second)),
        (Some(first), None) => Some(first),
        (None, second) => second,
    }
}

/// Why an input file gives no project.
#[derive(Drop, PartialEq, Eq)]
pub enum ReadFault {
    Refused(Refusal),
    NoMemory,
}

/// Why a name is not added to an index.
#[derive(Clone, Copy, PartialEq, Eq)]
pub enum AddFault {
    /// The name is there.
    Duplicate,
    NoMemory,
}
