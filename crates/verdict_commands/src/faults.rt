//! The lines that say a fault of the ranges and of a report.
ghost use Rattle.std.specs.Prelude.{◌≡◌, IfOk};
ghost use Rattle.verdict_commands.specs.Faults.{fault_place, key_token, range_said};
ghost use Rattle.verdict_commands.specs.Faults.{report_cause_name, report_cause_number, report_said};

use byte_edge::NoMemory;
use command_outputs::{Place, RefusalLine};
use key_words::write_key;
use object_index::ObjectIndex;
use range_lines::RangeCause;
use report_checker::ReportFault;
use rule_types::Key;
use std::alloc::Global;
use verdict_meaning::CertCause;

/// The line of a fault of the ranges, with its end: that of its line, from 1, or that of the file
/// as a whole where something is missing. NoMemory only where memory is wanting.
#[tactic(auto, using(crate::proofs::Causes::known_range_cause))]
pub(crate) fn range_refusal(
    alloc: Global,
    objects: &ObjectIndex,
    line: Option<u64>,
    cause: RangeCause,
    key: Option<Key>,
) -> Result<RefusalLine, NoMemory>
    ensures value { IfOk result (λ said. said
        ≡ range_said objects.now (record { line = line; cause = cause; key = key })) }
{
    let token = key_token(alloc, objects, key)?;
    let place = place_of(line, cause);
    RefusalLine::fault(alloc, place, cause.name(), cause.number(), token.as_slice())
}

/// Where a fault of the ranges is said.
fn place_of(line: Option<u64>, cause: RangeCause) -> Place
    ensures value { result ≡ fault_place line cause }
{
    match cause {
        RangeCause::MissingRange | RangeCause::MissingMoment => Place::Ranges,
        _ => match line {
            Some(line) => Place::RangesLine(line),
            None => Place::RangesLine(0),
        },
    }
}

/// The key of a fault, as it is written.
fn key_token(alloc: Global, objects: &ObjectIndex, key: Option<Key>) -> Result<Vec<u8>, NoMemory>
    ensures value { IfOk result (λ token. token.items ≡ key_token objects.now key) }
{
    let mut token = Vec::new(alloc);
    if let Some(key) = key {
        write_key(&mut token, objects, &key)?;
    }
    Ok(token)
}

/// The line of a fault of a report, with its end. NoMemory only where memory is wanting.
#[tactic(auto, using(crate::proofs::Causes::known_report_cause))]
pub(crate) fn report_refusal(alloc: Global, fault: &ReportFault) -> Result<RefusalLine, NoMemory>
    ensures value { IfOk result (λ said. said ≡ report_said fault.now) }
{
    let place = Place::ReportLine(fault.line);
    let name = cause_name(fault.cause);
    RefusalLine::fault(alloc, place, name, cause_number(fault.cause), b"")
}

/// The name of a cause.
fn cause_name(cause: CertCause) -> &'static [u8]
    ensures value { result.now ≡ report_cause_name cause }
{
    match cause {
        CertCause::Shape => b"Shape",
        CertCause::NotShown => b"NotShown",
        CertCause::NoEvent => b"NoEvent",
    }
}

/// The number of a cause.
fn cause_number(cause: CertCause) -> u8
    ensures value { result ≡ report_cause_number cause }
{
    match cause {
        CertCause::Shape => 1,
        CertCause::NotShown => 2,
        CertCause::NoEvent => 3,
    }
}
