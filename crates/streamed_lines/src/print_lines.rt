//! The lines of a trace, one after another.
ghost use Rattle.std.specs.Prelude.{◌≡◌, ◌<◌, ◌^◌, [], false};
ghost use Rattle.byte_edge.specs.Devices.{IsCallOn};
ghost use Rattle.byte_edge.specs.Lines.{newlines};
ghost use Rattle.byte_edge.specs.ReaderState.{ahead, to_come, WhenKnown, KnowsEnd};
ghost use Rattle.command_outputs.specs.Steps.{is_read_failed};
ghost use Rattle.streamed_lines.specs.Printers.{EndsStream};
ghost use Rattle.streamed_lines.specs.internal.Waiting.{Waits, OutCount, is_write_failed};

use crate::line_printer::{LinePrinter, PrintEnd};
use crate::waiting::hand_over;
use byte_edge::{Files, LineReader, ReadEnd, Sink};
use command_outputs::{Complaint, Role};
use std::alloc::Global;

/// Hands the lines of the trace to the printer, to its end or to the first line that ends it.
///
/// `text` has then what is printed and not yet written. What is printed of the lines that a read
/// gave is written before the next read.
pub fn print_lines<P: LinePrinter, F: Files, O: Sink>(
    alloc: Global,
    printer: &mut P,
    text: &mut Vec<u8>,
    reader: &mut LineReader,
    files: &mut F,
    out: &mut O,
) -> Result<(), Complaint>
    requires ready { P.is_ready printer.old }
    requires empty { text.old.items ≡ [] }
    requires slot { reader.old.slot ≡ 1 }
    requires opened { F.is_open files.old 1 }
    requires going { reader.old.spent ≡ false }
    requires at_end { KnowsEnd reader.old (F.left files.old 1) }
    requires room { reader.old.room < 2 ^ 62 }

    ensures waits { WhenKnown (F.left files.old 1) (F.left files.new 1) (λ before after.
        Waits (P.printed printer.old 1) (to_come reader.old before)
        (newlines (ahead reader.old before)) after
        (O.written out.old) (O.written out.new) text.new.items result) }
    ensures ends { EndsStream (F.left files.new) result }

    ensures call { IsCallOn 1 (is_read_failed result)
        (F.is_open files.old) (F.is_open files.new) (F.held files.old) (F.held files.new)
        (F.left files.old) (F.left files.new) (F.faults files.old) (F.faults files.new) }
    ensures count { OutCount (is_write_failed result) (O.faults out.old) (O.faults out.new) }
{
    let mut number: u64 = 1;
    'lines: loop {
        let has_line = reader.has_line();
        if hand_over(text, has_line, out).is_err() {
            return Err(Complaint::WriteFailed);
        }
        match reader.next_line(files) {
            Ok(Some(line)) => match printer.print_line(alloc, number, line, text) {
                Ok(()) => {}
                Err(PrintEnd::Refused(message)) => return Err(Complaint::Refused(message)),
                Err(PrintEnd::NoMemory) => return Err(Complaint::OutOfMemory),
            },
            Ok(None) => match printer.end_lines(alloc, number) {
                Ok(()) => return Ok(()),
                Err(PrintEnd::Refused(message)) => return Err(Complaint::Refused(message)),
                Err(PrintEnd::NoMemory) => return Err(Complaint::OutOfMemory),
            },
            Err(ReadEnd::LineTooLong) => match printer.refuse_long(alloc, number) {
                PrintEnd::Refused(message) => return Err(Complaint::Refused(message)),
                PrintEnd::NoMemory => return Err(Complaint::OutOfMemory),
            },
            Err(ReadEnd::TooLong) => return Err(Complaint::TooLong(Role::Trace)),
            Err(ReadEnd::Fault) => return Err(Complaint::ReadFailed(Role::Trace)),
        }
        number += 1;
    }
}
