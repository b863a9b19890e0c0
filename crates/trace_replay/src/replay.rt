//! A replay of rules, row by row.
ghost use Rattle.std.specs.Prelude.{◌≡◌, IfOk};
ghost use Rattle.rule_types.specs.WellFormed.{WellFormed};
ghost use Rattle.rule_meaning.specs.History.{controlled_settings};
ghost use Rattle.replay_meaning.specs.Kept.{first_kept, kept_after};
ghost use Rattle.replay_meaning.specs.Standing.{CanFollow};
ghost use Rattle.trace_replay.specs.Answers.{row_at, row_answer};
ghost use Rattle.trace_replay.specs.Progress.{kept_of, IsProgressOf};

use crate::fresh::first_progress;
use crate::progress::Progress;
use crate::reads::Reads;
use crate::row::take_row;
use byte_edge::NoMemory;
use exact_fraction::frac::Frac;
use exact_fraction::moment::Moment;
use rule_types::{RowStop, Rules};
use std::alloc::Global;

/// A replay of rules over the rows of a trace, by some reading.
#[derive(Drop)]
pub struct Replay<'a, R: Reads> {
    rules: &'a Rules,
    readings: R,
    progress: Progress,
}

impl<'a, R: Reads> Replay<'a, R> {
    /// A replay that has seen no row: each tracked link stands at its initial setting. NoMemory
    /// where memory is wanting; a row takes none.
    pub fn new(alloc: Global, rules: &'a Rules, readings: R) -> Result<Replay<'a, R>, NoMemory>
        requires well_formed { WellFormed rules.now }
        ensures kept { IfOk result (λ replay. kept_of replay.progress ≡ first_kept rules.now) }
        ensures fits { IfOk result (λ replay. IsProgressOf rules.now replay.progress) }
        ensures rules { IfOk result (λ replay. replay.rules.now ≡ rules.now) }
        ensures readings { IfOk result (λ replay. replay.readings ≡ readings) }
    {
        let progress = first_progress(alloc, rules)?;
        Ok(Replay {
            rules,
            readings,
            progress,
        })
    }

    /// Takes the next row, with one input for each input key: the rules are read where it is due
    /// and not stopped, and the links move. The row that stops is told by Stop, and each later one
    /// by Stopped, with that stop; after Stopped all is as before. It takes no memory.
    pub fn row(&mut self, moment: Moment, inputs: &[Option<Frac>]) -> Result<(), RowStop>
        requires ready { R.is_ready self.old.readings }
        requires made_for { R.made_for self.old.readings ≡ self.old.rules.now }
        requires fits { IsProgressOf self.old.rules.now self.old.progress }
        requires follows { CanFollow (R.choice self.old.readings) self.old.rules.now
            (R.held self.old.readings) (kept_of self.old.progress) (row_at moment inputs.now) }

        ensures answer { result ≡ row_answer self.old.progress.stop self.new.progress.stop }
        ensures kept { kept_of self.new.progress
            ≡ kept_after (R.choice self.old.readings) self.old.rules.now (R.held self.old.readings)
            (kept_of self.old.progress) (row_at moment inputs.now) }
        ensures ready { R.is_ready self.new.readings }
        ensures made_for { R.made_for self.new.readings ≡ self.new.rules.now }
        ensures fits { IsProgressOf self.new.rules.now self.new.progress }
        ensures same_rules { self.new.rules.now ≡ self.old.rules.now }
        ensures same_tables { R.held self.new.readings ≡ R.held self.old.readings }
        ensures same_choice { R.choice self.new.readings ≡ R.choice self.old.readings }
    {
        if let Some(stop) = self.progress.stop {
            return Err(RowStop::Stopped(stop));
        }
        take_row(
            self.rules,
            &mut self.readings,
            &mut self.progress,
            moment,
            inputs,
        );
        match self.progress.stop {
            Some(stop) => Err(RowStop::Stop(stop)),
            None => Ok(()),
        }
    }

    /// The setting of each controlled link, in link order.
    pub fn settings(&self) -> &[Frac]
        requires fits { IsProgressOf self.now.rules.now self.now.progress }
        ensures settings { result.now
            ≡ controlled_settings self.now.rules.now (kept_of self.now.progress).standings }
    {
        &self.progress.settings
    }

    /// The moment of the last row, or None before the first one.
    pub fn last(&self) -> Option<Moment>
        ensures last { result ≡ (kept_of self.now.progress).last }
    {
        self.progress.last
    }

    /// What reads the rules.
    pub fn readings(&self) -> &R
        ensures readings { result.now ≡ self.now.readings }
    {
        &self.readings
    }

    /// The rules.
    pub fn rules(&self) -> &'a Rules
        ensures rules { result.now ≡ self.now.rules.now }
    {
        self.rules
    }
}
