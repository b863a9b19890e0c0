//! Faults of a line, and which of several is reported.
ghost use Rattle.std.specs.Prelude.{◌≡◌, IfOk};
ghost use Rattle.control_lines.specs.Faults.{both as both_of, refused_where as refuses_where};
ghost use Rattle.control_lines.specs.Faults.{sooner as sooner_of, refusal_on};
ghost use Rattle.control_lines.specs.Views.{fault_now, checked_now};

use byte_edge::NoMemory;
use rule_types::{Cause, Refusal};
use std::alloc::Global;

/// A fault on a line.
#[derive(Clone, Copy)]
pub struct Fault<'a> {
    pub cause: Cause,
    /// The bytes that are at fault, as written; empty where the whole line is.
    pub token: &'a [u8],
}

impl<'a> Fault<'a> {
    /// Of two faults on one line the one that is reported: the one with the lower number of its
    /// cause, and this one where these are the same.
    #[tactic(auto, unfolding(crate::specs::Faults::sooner))]
    pub fn sooner(self, other: Fault<'a>) -> Fault<'a>
        ensures value { fault_now result
            ≡ sooner_of (fault_now self.entry) (fault_now other.entry) }
    {
        if other.cause.number() < self.cause.number() {
            other
        } else {
            self
        }
    }

    /// The refusal of a line by this fault, with a copy of the bytes at fault: NoMemory only where
    /// memory is out.
    pub fn refusal(self, alloc: Global, line: u64) -> Result<Refusal, NoMemory>
        ensures value { IfOk result (λ refusal. refusal ≡ refusal_on line (fault_now self.entry)) }
    {
        let refusal = Refusal::new(alloc, line, self.cause, self.token)?;
        Ok(refusal)
    }
}

/// Two parts of a line: both values, or the fault that is reported of the two.
#[tactic(auto, unfolding(crate::specs::Faults::both))]
pub fn both<'a, A: Drop, B: Drop>(
    one: Result<A, Fault<'a>>,
    other: Result<B, Fault<'a>>,
) -> Result<(A, B), Fault<'a>>
    ensures value { checked_now result ≡ both_of (checked_now one.entry) (checked_now other.entry) }
{
    match (one, other) {
        (Ok(first), Ok(second)) => Ok((first, second)),
        (Ok(_), Err(fault)) => Err(fault),
        (Err(fault), Ok(_)) => Err(fault),
        (Err(first), Err(second)) => Err(first.sooner(second)),
    }
}

/// The fault where a test holds.
pub fn refused_where(test: bool, fault: Fault<'_>) -> Result<(), Fault<'_>>
    ensures value { checked_now result ≡ refuses_where test (fault_now fault.entry) }
{
    if test { Err(fault) } else { Ok(()) }
}
