//! Laws of the stages of a command, which callers can cite. The functions here do nothing: their
//! contracts are the laws.
ghost use Rattle.std.specs.Prelude.{◌≡◌, ◌⊎◌, ◌≤◌, ◌+◌, ℕ, List, [], length, Option, None, Some};
ghost use Rattle.std.specs.Prelude.{IfSome, Result, Ok, Err, slice_get, codes};
ghost use Rattle.command_outputs.specs.Commands.{Performs};
ghost use Rattle.command_outputs.specs.Messages.{fault_line, stop_in_name_line};
ghost use Rattle.command_outputs.specs.Messages.{stop_in_rule_line, read_failed_line, too_long_line};
ghost use Rattle.command_outputs.specs.Outcomes.{Outcome, stage, written};
ghost use Rattle.command_outputs.specs.Statuses.{completion_status};
ghost use Rattle.command_outputs.specs.Steps.{JudgesFile, PassesStage, StagesPassed, WritesText};
ghost use Rattle.command_outputs.specs.declared.complaint.Complaint.{Complaint};
ghost use Rattle.command_outputs.specs.declared.completion.Completion.{Completion};
ghost use Rattle.command_outputs.specs.declared.file_kind.FileKind.{FileKind};
ghost use Rattle.command_outputs.specs.declared.role.Role.{Role};

use byte_edge::{Files, Sink};

/// The stages of a command, one after another: before the first, after one more that is passed, and
/// what the command performs where a stage stops it and where a stage is passed.
pub fn stages<A, T, F: Files, O: Sink>()
    ensures none { (files : F) → StagesPassed 0 (F.is_open files) (F.held files) (F.held files)
        (F.left files) (F.left files) (F.faults files) (F.faults files) }
    ensures next { (kind : FileKind) (judge : List (Option (List ℕ)) → Result A (List ℕ))
        (view : T → A) (held : Option (List ℕ)) (value : T) (was mid now : F)
        → StagesPassed kind.slot (F.is_open mid) (F.held was) (F.held mid)
        (F.left was) (F.left mid) (F.faults was) (F.faults mid)
        → PassesStage kind judge view held (F.is_open mid) (F.is_open now) (F.held mid) (F.held now)
        (F.left mid) (F.left now) (F.faults mid) (F.faults now) (Ok value)
        → StagesPassed (kind.slot + 1) (F.is_open now) (F.held was) (F.held now)
        (F.left was) (F.left now) (F.faults was) (F.faults now) }
    ensures stopped { (roles : List Role) (kind : FileKind)
        (judge : List (Option (List ℕ)) → Result A (List ℕ)) (view : T → A)
        (next : A → Option Outcome) (held : Option (List ℕ)) (was mid now : F) (out : O)
        (complaint : Complaint)
        → slice_get roles kind.slot ≡ Some kind.role
        → ((value : A) → IfSome (next value) (λ o. kind.slot + 1 ≤ o.opened))
        → ((value : A) → IfSome (next value) (λ o. o.partial ≡ None)) ⊎ (kind.slot ≡ 0)
        → StagesPassed kind.slot (F.is_open mid) (F.held was) (F.held mid)
        (F.left was) (F.left mid) (F.faults was) (F.faults mid)
        → PassesStage kind judge view held (F.is_open mid) (F.is_open now) (F.held mid) (F.held now)
        (F.left mid) (F.left now) (F.faults mid) (F.faults now) (Err complaint)
        → Performs roles (stage kind judge next held) (F.is_open now)
        (F.left was) (F.left now) (F.faults was) (F.faults now)
        (O.written out) (O.written out) (O.faults out) (O.faults out) (Err complaint) }
    ensures through { (roles : List Role) (kind : FileKind)
        (judge : List (Option (List ℕ)) → Result A (List ℕ)) (view : T → A)
        (next : A → Option Outcome) (held : Option (List ℕ)) (value : T) (was now : F)
        (out_was out_now : O) (result : Result Completion Complaint)
        → IfSome held (λ bytes. JudgesFile kind judge view bytes (Ok value))
        → Performs roles (next (view value)) (F.is_open now)
        (F.left was) (F.left now) (F.faults was) (F.faults now)
        (O.written out_was) (O.written out_now) (O.faults out_was) (O.faults out_now) result
        → Performs roles (stage kind judge next held) (F.is_open now)
        (F.left was) (F.left now) (F.faults was) (F.faults now)
        (O.written out_was) (O.written out_now) (O.faults out_was) (O.faults out_now) result }
{}

/// The outcomes of a stage: it opens as many files as all that comes next, and its own; and it
/// writes at its end only where all that comes next does.
pub fn stage_outcomes<A>()
    ensures opens { (count : ℕ) (kind : FileKind)
        (judge : List (Option (List ℕ)) → Result A (List ℕ)) (next : A → Option Outcome)
        (held : Option (List ℕ)) → count ≤ kind.slot + 1
        → ((value : A) → IfSome (next value) (λ o. count ≤ o.opened))
        → IfSome (stage kind judge next held) (λ o. count ≤ o.opened) }
    ensures waits { (kind : FileKind) (judge : List (Option (List ℕ)) → Result A (List ℕ))
        (next : A → Option Outcome) (held : Option (List ℕ))
        → ((value : A) → IfSome (next value) (λ o. o.partial ≡ None))
        → IfSome (stage kind judge next held) (λ o. o.partial ≡ None) }
{}

/// The ends of a command: its text was written after all its files were accepted, or memory was
/// refused before anything was written.
pub fn command_ends<F: Files, O: Sink>()
    ensures written { (roles : List Role) (completion : Completion) (text : List ℕ) (was now : F)
        (out_was out_now : O) (result : Result Completion Complaint)
        → StagesPassed (length roles) (F.is_open now) (F.held was) (F.held now)
        (F.left was) (F.left now) (F.faults was) (F.faults now)
        → WritesText text completion (O.written out_was) (O.written out_now)
        (O.faults out_was) (O.faults out_now) result
        → Performs roles (Some (written (length roles) (completion_status completion) text))
        (F.is_open now) (F.left was) (F.left now) (F.faults was) (F.faults now)
        (O.written out_was) (O.written out_now) (O.faults out_was) (O.faults out_now) result }
    ensures out_of_memory { (count : ℕ) (roles : List Role) (outcome : Option Outcome) (was now : F)
        (out : O) → IfSome outcome (λ o. count ≤ o.opened)
        → StagesPassed count (F.is_open now) (F.held was) (F.held now)
        (F.left was) (F.left now) (F.faults was) (F.faults now)
        → Performs roles outcome (F.is_open now)
        (F.left was) (F.left now) (F.faults was) (F.faults now)
        (O.written out) (O.written out) (O.faults out) (O.faults out)
        (Err Complaint.OutOfMemory) }
{}
