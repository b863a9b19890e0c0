//! Laws that callers can cite. The functions here do nothing: their contracts are the laws.
ghost use Rattle.std.specs.Prelude.{ℕ, IsTrue, List, Option, Result, Err};
ghost use Rattle.rule_types.specs.Causes.{cause_number};
ghost use Rattle.rule_types.specs.declared.refusal.Cause.{Cause};
ghost use Rattle.command_outputs.specs.Messages.{is_cause};
ghost use Rattle.command_outputs.specs.Steps.{PassesStage, every_file, texts_read};
ghost use Rattle.command_outputs.specs.declared.complaint.Complaint.{Complaint};
ghost use Rattle.command_outputs.specs.declared.file_kind.FileKind.{FileKind};
ghost use Rattle.command_outputs.specs.declared.place.Place.TheVariants.{InputLine};
ghost use Rattle.input_check.specs.InputRefusals.{cause_name};

use byte_edge::Files;

/// Each cause of refusal of the input file is one of those of its lines.
pub fn cause_names()
    ensures known { (line : ℕ) (cause : Cause)
        → IsTrue (is_cause (InputLine line) (cause_name cause) (cause_number cause)) }
{}

/// A file that could not be read to its end stops every judgement of it.
pub fn whole_files<A, T, F: Files>()
    ensures unread { (kind : FileKind) (judge : List (Option (List ℕ)) → Result A (List ℕ))
        (view : T → A) (held : Option (List ℕ)) (was now : F) (complaint : Complaint)
        → PassesStage kind every_file texts_read held (F.is_open was) (F.is_open now)
        (F.held was) (F.held now) (F.left was) (F.left now) (F.faults was) (F.faults now)
        (Err complaint)
        → PassesStage kind judge view held (F.is_open was) (F.is_open now)
        (F.held was) (F.held now) (F.left was) (F.left now) (F.faults was) (F.faults now)
        (Err complaint) }
{}
