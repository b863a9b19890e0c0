//! A trace that is printed while it is read.
ghost use Rattle.std.specs.Prelude.{◌≡◌, ℕ, List, Option, Some, Err};
ghost use Rattle.byte_edge.specs.ReaderState.{WhenKnown};
ghost use Rattle.streamed_lines.specs.Printers.{EndsStream, PrintsFile, StreamsTrace};
ghost use Rattle.streamed_lines.specs.internal.Waiting.{Finishes, StreamCalls, has_rest};

use crate::line_printer::LinePrinter;
use crate::print_lines::print_lines;
use byte_edge::{Files, LineReader, Sink, write_all};
use command_outputs::{Complaint, Completion, Role, TRACE_FILE};
use std::alloc::Global;

/// Opens the trace under `name` and prints it, line by line as it is read.
///
/// It takes memory for a line and a block of the trace, and for what waits to be written.
pub fn stream_trace<P: LinePrinter, F: Files, O: Sink>(
    alloc: Global,
    printer: &mut P,
    name: &str,
    files: &mut F,
    out: &mut O,
) -> Result<Completion, Complaint>
    requires ready { P.is_ready printer.old }

    ensures streams { StreamsTrace (P.printed printer.old 1) (F.held files.old name.now)
        (F.is_open files.old) (F.is_open files.new)
        (F.left files.old) (F.left files.new) (F.faults files.old) (F.faults files.new)
        (O.written out.old) (O.written out.new) (O.faults out.old) (O.faults out.new) result }
{
    if files.open_file(TRACE_FILE.slot, name).is_err() {
        return Err(Complaint::ReadFailed(Role::Trace));
    }
    stream_opened(alloc, printer, files, out)
}

/// Prints the trace that was opened.
fn stream_opened<P: LinePrinter, F: Files, O: Sink>(
    alloc: Global,
    printer: &mut P,
    files: &mut F,
    out: &mut O,
) -> Result<Completion, Complaint>
    requires ready { P.is_ready printer.old }
    requires opened { F.is_open files.old 1 }

    ensures prints { WhenKnown (F.left files.old 1) (F.left files.new 1) (λ before after.
        (slot : Option (List ℕ)) → PrintsFile (P.printed printer.old 1) before slot (Some after)
        (O.written out.old) (O.written out.new) result) }
    ensures ends { EndsStream (F.left files.new) result }
    ensures calls { StreamCalls
        (F.is_open files.old) (F.is_open files.new)
        (F.left files.old) (F.left files.new) (F.faults files.old) (F.faults files.new)
        (O.faults out.old) (O.faults out.new) result }
{
    let made = LineReader::new(alloc, TRACE_FILE.slot, TRACE_FILE.limit, TRACE_FILE.budget);
    let Ok(mut reader) = made else {
        return Err(Complaint::OutOfMemory);
    };
    let mut text = Vec::new(alloc);
    let ended = print_lines(alloc, printer, &mut text, &mut reader, files, out);
    finish(ended, &text, out)
}

/// Writes what waits, unless a write failed or memory was refused, and ends the command as the
/// lines ended.
fn finish<O: Sink>(
    ended: Result<(), Complaint>,
    text: &[u8],
    out: &mut O,
) -> Result<Completion, Complaint>
    ensures finishes { Finishes text.now ended (O.written out.old) (O.written out.new)
        (O.faults out.old) (O.faults out.new) result }
{
    match ended {
        Ok(()) => {
            if write_all(out, text).is_err() {
                return Err(Complaint::WriteFailed);
            }
            Ok(Completion::Done)
        }
        Err(complaint) => {
            if !has_rest(&complaint) {
                return Err(complaint);
            }
            if write_all(out, text).is_err() {
                return Err(Complaint::WriteFailed);
            }
            Err(complaint)
        }
    }
}

/// Whether what waits is still to be written.
fn has_rest(complaint: &Complaint) -> bool
    ensures value { result ≡ has_rest (Err complaint.now) }
{
    match complaint {
        Complaint::Refused(_) => true,
        Complaint::TooLong(_) => true,
        Complaint::ReadFailed(_) => true,
        Complaint::WriteFailed => false,
        Complaint::OutOfMemory => false,
    }
}
