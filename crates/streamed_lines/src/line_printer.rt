//! What prints a text line by line.
ghost use Rattle.std.specs.Prelude.{◌≡◌, ◌<◌, ◌^◌, ℕ, List, [], ◌∷◌, Some, OnOk};
ghost use Rattle.byte_edge.specs.Lines.{LineEvent, Whole, OverLong, PastBudget};
ghost use Rattle.command_outputs.specs.Messages.{too_long_line};
ghost use Rattle.command_outputs.specs.declared.role.Role.TheVariants.{Trace};
ghost use Rattle.streamed_lines.specs.Streams.{Printed, ends};
ghost use Rattle.streamed_lines.specs.Printers.{PrintsLine, RefusesLine, EndsLines};

use byte_edge::NoMemory;
use command_outputs::RefusalLine;
use std::alloc::Global;

/// Why a printer ends before the end of the lines.
#[derive(Drop)]
pub enum PrintEnd {
    /// A line is refused, with this line on standard error.
    Refused(RefusalLine),
    NoMemory,
}

/// What prints a text while it takes lines, one after another. Lines are counted from 1.
pub trait LinePrinter {
    // What is printed of these lines by a printer in this state; the first line has this number.
    ghost printed: { Self → ℕ → List LineEvent → Printed };

    // What has to hold before a line is taken.
    ghost is_ready: { Self → Type 0 };

    /// Takes the next line, and adds to `text` what is printed of it.
    ///
    /// Where the line is refused the text is as it was. Where memory is refused it may hold a part
    /// of what was to be printed.
    fn print_line(
        &mut self,
        alloc: Global,
        number: u64,
        line: &[u8],
        text: &mut Vec<u8>,
    ) -> Result<(), PrintEnd>
        requires ready { is_ready self.old }
        requires few { number < 2 ^ 63 }

        ensures still_ready { OnOk result (is_ready self.new) }
        ensures prints { PrintsLine (printed self.old) (printed self.new) (Whole line.now) number
            text.old.items text.new.items result };

    /// Refuses a line that is too long.
    fn refuse_long(&self, alloc: Global, number: u64) -> PrintEnd
        requires ready { is_ready self.now }

        ensures refuses { RefusesLine (printed self.now) OverLong number result };

    /// Takes the end of the lines.
    fn end_lines(&self, alloc: Global, number: u64) -> Result<(), PrintEnd>
        requires ready { is_ready self.now }

        ensures ends { EndsLines (printed self.now) number result };

    // A line past the budget of bytes ends the text, and nothing more is printed at the end.
    ghost past_budget: { (printer : Self) (number : ℕ) (later : List LineEvent)
        → printed printer number (PastBudget ∷ later) ≡ ends (Some (too_long_line Trace)) };

    ghost nothing_at_end: { (printer : Self) (number : ℕ)
        → (printed printer number []).text ≡ [] };
}
