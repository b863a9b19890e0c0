//! The end of a run.
ghost use Rattle.std.specs.Prelude.{◌≢◌, ℕ, List, Option, IfSome};
ghost use Rattle.command_outputs.specs.declared.role.Role.{Role};
ghost use Rattle.command_outputs.specs.Statuses.{complaint_status, complaint_line, HasLine};
ghost use Rattle.command_outputs.specs.Steps.{Tells};
ghost use Rattle.command_outputs.specs.Outcomes.{Outcome};
ghost use Rattle.command_outputs.specs.Commands.{Performs};
ghost use Rattle.command_outputs.specs.Runs.{Leaves, Says, Counts};

use crate::complaint::Complaint;
use crate::completion::Completion;
use crate::messages::tell;
use crate::status::Status;
use byte_edge::{Files, Sink};

/// Ends the run of a command that gave this answer: says on `err` why its whole text was not
/// written, where that is so, and gives the status of the run.
///
/// Where the command performs an outcome, the run leaves what the outcome says.
pub fn conclude<F: Files, O: Sink, E: Sink>(
    answer: Result<Completion, Complaint>,
    err: &mut E,
) -> Status
    ensures leaves { (roles : List Role) (outcome : Option Outcome) (was now : F)
        (out_was out_now : O) → Performs roles outcome (F.is_open now)
        (F.left was) (F.left now) (F.faults was) (F.faults now)
        (O.written out_was) (O.written out_now) (O.faults out_was) (O.faults out_now) answer
        → IfSome outcome (λ o. Leaves o (F.left was 1) (F.left now)
        (O.written out_was) (O.written out_now) (E.written err.old) (E.written err.new)
        (O.faults out_was) (O.faults out_now) (E.faults err.old) (E.faults err.new) result) }
    ensures says { (usage : List ℕ) (roles : List Role) (outcome : Option Outcome) (was now : F)
        (out_was out_now : O) → Performs roles outcome (F.is_open now)
        (F.left was) (F.left now) (F.faults was) (F.faults now)
        (O.written out_was) (O.written out_now) (O.faults out_was) (O.faults out_now) answer
        → Says usage roles (F.faults was) (F.faults now) (O.faults out_was) (O.faults out_now)
        (E.faults err.old) (E.faults err.new) (E.written err.old) (E.written err.new) result }
    ensures counts { (roles : List Role) (outcome : Option Outcome) (was now : F)
        (out_was out_now : O) → Performs roles outcome (F.is_open now)
        (F.left was) (F.left now) (F.faults was) (F.faults now)
        (O.written out_was) (O.written out_now) (O.faults out_was) (O.faults out_now) answer
        → Counts roles (F.faults was) (F.faults now) (O.faults out_was) (O.faults out_now)
        (E.faults err.old) (E.faults err.new) result }
    ensures command { result ≢ Status.Usage }
{
    match answer {
        Ok(completion) => completion.status(),
        Err(complaint) => complain(err, &complaint),
    }
}

/// Says a complaint, and gives the status that belongs to it.
fn complain<E: Sink>(err: &mut E, complaint: &Complaint) -> Status
    ensures tells { Tells (complaint_line complaint.now) (E.written err.old) (E.written err.new)
        (E.faults err.old) (E.faults err.new) (complaint_status complaint.now) result }
    ensures line { HasLine complaint.now }
{
    tell(err, complaint.line(), complaint.status())
}
