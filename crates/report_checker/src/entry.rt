//! The judgement of an entry.
ghost use Rattle.std.specs.Prelude.{◌≡◌, ℕ, suc, ◌<◌, ◌^◌, length, Some, Err, Result, IfOk};
ghost use Rattle.cert_checker.specs.Answers.{IsAnswer};
ghost use Rattle.report_checker.specs.Accepted.{fault_at as fault_from, node_line as line_from};
ghost use Rattle.report_checker.specs.Accepted.{state_fault as fault_of_state};
ghost use Rattle.report_checker.specs.Accepted.{tree_fault as fault_of_tree};
ghost use Rattle.report_checker.specs.Accepted.{verdict_fault as fault_of_verdict};
ghost use Rattle.rule_types.specs.Tables.{HoldsTables};
ghost use Rattle.rule_types.specs.WellFormed.{WellFormed};
ghost use Rattle.state_checker.specs.Witnesses.{is_witness as is_its_witness};
ghost use Rattle.verdict_meaning.specs.Certificates.{NodeFault, checked_cert};

use crate::fault::ReportFault;
use byte_edge::NoMemory;
use cert_checker::check;
use curves_series::Tables;
use rule_types::{Rules, State};
use state_checker::is_witness;
use std::alloc::Global;
use verdict_meaning::{Cert, CertCause, CertEnd, Question, Ranges, Verdict};

/// The fault of a verdict whose line is at a place from 0, or None where it is accepted.
#[tactic(auto, unfolding(crate::specs::Accepted::verdict_fault))]
pub(crate) fn verdict_fault(
    alloc: Global,
    rules: &Rules,
    tables: &Tables,
    ranges: &Ranges,
    question: &Question,
    places: &Vec<u64>,
    at: u64,
    verdict: &Verdict,
) -> Result<Option<ReportFault>, NoMemory>
    requires formed { WellFormed rules.now }
    requires tables { HoldsTables tables.now rules.now.rules }
    ensures { IfOk result (λ fault. fault ≡ fault_of_verdict rules.now tables.now ranges.now
        question.now places.now.items at verdict.now) }
{
    match verdict {
        Verdict::Holds(cert) => tree_fault(alloc, rules, tables, ranges, question, places, cert),
        Verdict::Refuted(state) => state_fault(alloc, rules, tables, ranges, question, at, state),
        Verdict::Undecided(_) => Ok(None),
    }
}

/// The fault of a tree, with the places of the lines of its nodes.
fn tree_fault(
    alloc: Global,
    rules: &Rules,
    tables: &Tables,
    ranges: &Ranges,
    question: &Question,
    places: &Vec<u64>,
    cert: &Cert,
) -> Result<Option<ReportFault>, NoMemory>
    requires formed { WellFormed rules.now }
    requires tables { HoldsTables tables.now rules.now.rules }
    ensures { IfOk result (λ fault. fault ≡ fault_of_tree places.now.items
        (checked_cert rules.now tables.now ranges.now question.now cert.now)) }
{
    match check(alloc, rules, tables, ranges, question, cert) {
        Ok(_) => Ok(None),
        Err(end) => end_fault(places, &end),
    }
}

/// The fault with which a check ends.
fn end_fault(places: &Vec<u64>, end: &CertEnd) -> Result<Option<ReportFault>, NoMemory>
    ensures { (judged : Result ℕ NodeFault) → IsAnswer (Err end.now) judged
        → IfOk result (λ fault. fault ≡ fault_of_tree places.now.items judged) }
{
    match end {
        CertEnd::Fault { place, cause } => fault_at(node_line(places, *place), *cause),
        CertEnd::NoMemory => Err(NoMemory),
    }
}

/// The place of the line of a node.
fn node_line(places: &Vec<u64>, node: u64) -> u64
    ensures line { result ≡ line_from places.now.items node }
    ensures few { length places.now.items < 2 ^ 64 }
{
    let _count = places.len();
    match places.get(node as usize) {
        Some(at) => *at,
        None => 0,
    }
}

/// The fault of a state, which is told at the line of its verdict.
fn state_fault(
    alloc: Global,
    rules: &Rules,
    tables: &Tables,
    ranges: &Ranges,
    question: &Question,
    at: u64,
    state: &State,
) -> Result<Option<ReportFault>, NoMemory>
    requires formed { WellFormed rules.now }
    requires tables { HoldsTables tables.now rules.now.rules }
    ensures { IfOk result (λ fault. fault ≡ fault_of_state at
        (is_its_witness rules.now tables.now question.now ranges.now state.now)) }
{
    if is_witness(alloc, rules, tables, question, ranges, state)? {
        return Ok(None);
    }
    fault_at(at, CertCause::NoEvent)
}

/// The fault of the line at a place from 0.
fn fault_at(at: u64, cause: CertCause) -> Result<Option<ReportFault>, NoMemory>
    ensures { IfOk result (λ fault. fault ≡ Some (fault_from at cause)) }
{
    match at.checked_add(1) {
        Some(line) => Ok(Some(ReportFault { line, cause })),
        None => Err(NoMemory),
    }
}
