//! The law of a trace that is streamed, which callers can cite. The function here does nothing: its
//! contract is the law.
ghost use Rattle.std.specs.Prelude.{◌≡◌, ℕ, List, length, Option, Some, Result, slice_get};
ghost use Rattle.byte_edge.specs.Lines.{LineEvent};
ghost use Rattle.command_outputs.specs.Commands.{Performs};
ghost use Rattle.command_outputs.specs.Steps.{StagesPassed};
ghost use Rattle.command_outputs.specs.declared.complaint.Complaint.{Complaint};
ghost use Rattle.command_outputs.specs.declared.completion.Completion.{Completion};
ghost use Rattle.command_outputs.specs.declared.role.Role.{Role};
ghost use Rattle.command_outputs.specs.declared.role.Role.TheVariants.{Trace};
ghost use Rattle.streamed_lines.specs.Printers.{StreamsTrace};
ghost use Rattle.streamed_lines.specs.Streams.{Printed, stream};

use byte_edge::{Files, Sink};

/// A command of an input file and a trace: after the input file was read and accepted, it performs
/// what `stream` says of the trace that was streamed.
pub fn streams<F: Files, O: Sink>()
    ensures performs { (roles : List Role) (print : List LineEvent → Printed)
        (held : Option (List ℕ)) (was mid now : F) (out_was out_now : O)
        (result : Result Completion Complaint)
        → slice_get roles 1 ≡ Some Trace → length roles ≡ 2
        → StagesPassed 1 (F.is_open mid) (F.held was) (F.held mid)
        (F.left was) (F.left mid) (F.faults was) (F.faults mid)
        → StreamsTrace print held (F.is_open mid) (F.is_open now)
        (F.left mid) (F.left now) (F.faults mid) (F.faults now)
        (O.written out_was) (O.written out_now) (O.faults out_was) (O.faults out_now) result
        → Performs roles (stream print held) (F.is_open now)
        (F.left was) (F.left now) (F.faults was) (F.faults now)
        (O.written out_was) (O.written out_now) (O.faults out_was) (O.faults out_now) result }
{}
