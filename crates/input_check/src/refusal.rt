//! The line that says a refusal of the input file.
ghost use Rattle.std.specs.Prelude.{◌≡◌, IfOk};
ghost use Rattle.input_check.specs.InputRefusals.{cause_name, refusal_said};

use byte_edge::NoMemory;
use command_outputs::{Place, RefusalLine};
use rule_types::{Cause, Refusal};
use std::alloc::Global;

/// The line of a refusal of the input file.
#[tactic(auto, using(crate::proofs::Causes::known_cause))]
pub fn refusal_line(alloc: Global, refusal: &Refusal) -> Result<RefusalLine, NoMemory>
    ensures value { IfOk result (λ line. line ≡ refusal_said refusal.now) }
{
    let place = Place::InputLine(refusal.line);
    let name = cause_name(refusal.cause);
    RefusalLine::fault(
        alloc,
        place,
        name,
        refusal.cause.number(),
        refusal.token.as_slice(),
    )
}

/// The name of a cause.
fn cause_name(cause: Cause) -> &'static [u8]
    ensures value { result.now ≡ cause_name cause }
{
    match cause {
        Cause::LineTooLong => b"LineTooLong",
        Cause::BadText => b"BadText",
        Cause::BadOption => b"BadOption",
        Cause::DuplicateName => b"DuplicateName",
        Cause::BadCurve => b"BadCurve",
        Cause::BadSeries => b"BadSeries",
        Cause::BadClause => b"BadClause",
        Cause::ClauseOrder => b"ClauseOrder",
        Cause::UnknownObject => b"UnknownObject",
        Cause::WrongKind => b"WrongKind",
        Cause::UnknownAttribute => b"UnknownAttribute",
        Cause::WrongValue => b"WrongValue",
        Cause::UnknownName => b"UnknownName",
        Cause::ReservedName => b"ReservedName",
        Cause::OutsideFunction => b"OutsideFunction",
        Cause::BadExpression => b"BadExpression",
        Cause::NumberTooLarge => b"NumberTooLarge",
        Cause::UnknownTable => b"UnknownTable",
        Cause::FileSeries => b"FileSeries",
        Cause::RuleStep => b"RuleStep",
        Cause::TooMany => b"TooMany",
    }
}
