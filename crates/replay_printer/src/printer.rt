//! The printer of a replay.
ghost use Rattle.std.specs.Prelude.{◌≡◌, List, IfOk};
ghost use Rattle.byte_edge.specs.Lines.{LineEvent};
ghost use Rattle.replay_meaning.specs.Standing.{CanReplay};
ghost use Rattle.replay_printer.specs.Printed.{replay_printed};

use crate::ends::fault_end;
use crate::rows::{take_header, take_row};
use byte_edge::NoMemory;
use exact_fraction::frac::Frac;
use object_index::ObjectIndex;
use rule_types::Rules;
use std::alloc::Global;
use streamed_lines::{LinePrinter, PrintEnd};
use trace_csv::{Header, TraceCause, WrittenMoment};
use trace_replay::{Reads, Replay};

/// Prints the replay of rules over the lines of a trace, by some reading: a header with the names
/// of the controlled links, and for each row a line with its moment and the settings after it (SWMM
/// 5.2 manual, [CONTROLS]). After the header a line takes no memory, but for the text that grows
/// and for what a line with quotes takes.
#[derive(Drop)]
pub struct ReplayPrinter<'a, R: Reads> {
    replay: Replay<'a, R>,
    objects: &'a ObjectIndex,
    /// The header of the trace, once it was read.
    header: Option<Header>,
    /// The moment of the last row with its text, and at the start some moment.
    written: WrittenMoment,
    /// Room for the inputs of a row.
    inputs: Vec<Option<Frac>>,
}

impl<'a, R: Reads> ReplayPrinter<'a, R> {
    /// The printer of a replay of rules over these objects, which has taken no line. NoMemory where
    /// memory is wanting.
    pub fn new(
        alloc: Global,
        rules: &'a Rules,
        objects: &'a ObjectIndex,
        readings: R,
    ) -> Result<ReplayPrinter<'a, R>, NoMemory>
        requires can_replay { CanReplay (R.choice readings) rules.now (R.held readings) }
        requires made_for { R.made_for readings ≡ rules.now }
        requires reads { R.is_ready readings }
        ensures ready { IfOk result (λ printer.
            ⟦<ReplayPrinter<'a, R> as LinePrinter>⟧.is_ready printer) }
        ensures prints { IfOk result (λ printer. (lines : List LineEvent)
            → ⟦<ReplayPrinter<'a, R> as LinePrinter>⟧.printed printer 1 lines
            ≡ replay_printed (R.choice readings) rules.now (R.held readings) objects.now lines) }
    {
        let inputs = vec![in alloc; None; rules.input_keys.len()]?;
        let replay = Replay::new(alloc, rules, readings)?;
        Ok(ReplayPrinter {
            replay,
            objects,
            header: None,
            written: WrittenMoment::epoch(),
            inputs,
        })
    }

    /// What reads the rules.
    pub fn readings(&self) -> &R
        ensures readings { result.now ≡ self.now.replay.readings }
    {
        self.replay.readings()
    }
}

impl<'a, R: Reads> LinePrinter for ReplayPrinter<'a, R> {
    ghost use Rattle.std.specs.Prelude.{length};
    ghost use Rattle.trace_replay.specs.Progress.{kept_of};
    ghost use Rattle.replay_printer.specs.Printing.{printed_by, IsReady};
    ghost use Rattle.replay_printer.specs.Printing.{past_budget_of, nothing_at_end_of};

    ghost printed = { λ printer. printed_by (R.choice printer.replay.readings)
        printer.replay.rules.now (R.held printer.replay.readings) printer.objects.now
        printer.header (kept_of printer.replay.progress) };

    ghost is_ready = { λ printer. IsReady (R.is_ready printer.replay.readings)
        (R.made_for printer.replay.readings) (R.choice printer.replay.readings)
        printer.replay.rules.now (R.held printer.replay.readings)
        printer.header printer.replay.progress (length printer.inputs.items) };

    fn print_line(
        &mut self,
        alloc: Global,
        number: u64,
        line: &[u8],
        text: &mut Vec<u8>,
    ) -> Result<(), PrintEnd> {
        if let Some(header) = &self.header {
            let replay = &mut self.replay;
            let written = &mut self.written;
            let inputs = &mut self.inputs;
            return take_row(alloc, replay, header, written, inputs, number, line, text);
        }
        match take_header(alloc, self.replay.rules(), self.objects, number, line, text) {
            Ok(header) => {
                self.header = header;
                Ok(())
            }
            Err(end) => Err(end),
        }
    }

    fn refuse_long(&self, alloc: Global, number: u64) -> PrintEnd {
        fault_end(alloc, number, TraceCause::LineTooLong)
    }

    fn end_lines(&self, alloc: Global, _number: u64) -> Result<(), PrintEnd> {
        if self.header.is_some() {
            return Ok(());
        }
        Err(fault_end(alloc, 0, TraceCause::NoHeader))
    }

    ghost past_budget = { λ printer. past_budget_of (R.choice printer.replay.readings)
        printer.replay.rules.now (R.held printer.replay.readings) printer.objects.now
        printer.header (kept_of printer.replay.progress) };

    ghost nothing_at_end = { λ printer. nothing_at_end_of (R.choice printer.replay.readings)
        printer.replay.rules.now (R.held printer.replay.readings) printer.objects.now
        printer.header (kept_of printer.replay.progress) };
}
