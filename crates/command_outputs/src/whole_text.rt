//! A text that is written whole.
ghost use Rattle.command_outputs.specs.Steps.{WritesText};

use crate::complaint::Complaint;
use crate::completion::Completion;
use byte_edge::{Sink, write_all};

/// Writes the whole text of a command, which then ends with `completion`.
pub fn write_text<O: Sink>(
    out: &mut O,
    text: &[u8],
    completion: Completion,
) -> Result<Completion, Complaint>
    ensures writes { WritesText text.now completion (O.written out.old) (O.written out.new)
        (O.faults out.old) (O.faults out.new) result }
{
    match write_all(out, text) {
        Ok(()) => Ok(completion),
        Err(_) => Err(Complaint::WriteFailed),
    }
}
