//! What the lines so far state together.
ghost use Rattle.std.specs.Prelude.{◌≡◌, IfOk};
ghost use Rattle.range_lines.specs.declared.entry.Entry.TheVariants as entry;
ghost use Rattle.range_lines.specs.Lines.{no_lines, with_range as and_range};
ghost use Rattle.range_lines.specs.Lines.{with_moments as and_moments, with_step as and_step};
ghost use Rattle.range_lines.specs.Lines.{with_entry as and_entry, items_read, line_read};
ghost use Rattle.inp_text.specs.LineList.{line_of};
ghost use Rattle.range_lines.specs.internal.Views.{known_now, texts};

use crate::entry::{Entry, read_entry};
use crate::fault::RangeCause;
use crate::key_ranges::KeyRanges;
use crate::known::Known;
use crate::link_set::push_question;
use byte_edge::NoMemory;
use exact_fraction::frac::Frac;
use exact_fraction::moment::Moment;
use inp_text::{LineText, cut_line, first_control};
use list_types::Items;
use rule_types::Key;
use std::alloc::Global;
use verdict_meaning::Question;

/// What lines state: the ranges of keys, the first and the last moment, the step in seconds, and
/// the questions.
#[derive(Drop)]
pub(crate) struct Given {
    pub(crate) ranges: KeyRanges,
    pub(crate) moments: Option<(Moment, Moment)>,
    pub(crate) step: Option<Frac>,
    pub(crate) questions: Items<Question>,
}

impl Given {
    /// No lines.
    pub(crate) fn new(alloc: Global) -> Given
        ensures { result ≡ no_lines }
    {
        Given {
            ranges: KeyRanges::new(alloc),
            moments: None,
            step: None,
            questions: Items::new(alloc),
        }
    }

    /// What is given after a line, or the line's first fault.
    #[tactic(auto, unfolding(crate::specs::Lines::line_read))]
    pub(crate) fn after_line(
        self,
        alloc: Global,
        known: Known<'_>,
        line: LineText<'_>,
    ) -> Result<Result<Given, RangeCause>, NoMemory>
        ensures { IfOk result (λ read. read
            ≡ line_read (known_now known.entry) self (line_of line.entry)) }
    {
        match line {
            LineText::Text(bytes) => {
                if first_control(bytes).is_some() {
                    return Ok(Err(RangeCause::BadLine));
                }
                let items = cut_line(alloc, bytes)?;
                self.after_items(alloc, known, items.as_slice())
            }
            LineText::Long => Ok(Err(RangeCause::BadLine)),
        }
    }

    /// What is given after the items of a line.
    fn after_items<'a>(
        self,
        alloc: Global,
        known: Known<'_>,
        items: &'a [&'a [u8]],
    ) -> Result<Result<Given, RangeCause>, NoMemory>
        ensures { IfOk result (λ read. read
            ≡ items_read (known_now known.entry) self (texts items.now)) }
    {
        match items {
            [] => Ok(Ok(self)),
            [word, later @ ..] => match read_entry(alloc, known, word, later)? {
                Ok(entry) => self.with_entry(entry),
                Err(cause) => Ok(Err(cause)),
            },
        }
    }

    /// What is given once a line states one thing more.
    fn with_entry(self, entry: Entry) -> Result<Result<Given, RangeCause>, NoMemory>
        ensures { IfOk result (λ read. read ≡ and_entry self entry) }
    {
        match entry {
            Entry::Range(key, low, high) => self.with_range(key, low, high),
            Entry::Moments(first, last) => Ok(self.with_moments(first, last)),
            Entry::Step(step) => Ok(self.with_step(step)),
            Entry::Asks(question) => self.with_question(question),
        }
    }

    /// The same with the range of a key.
    #[tactic(auto, unfolding(crate::specs::Lines::with_range))]
    fn with_range(
        self,
        key: Key,
        low: Frac,
        high: Frac,
    ) -> Result<Result<Given, RangeCause>, NoMemory>
        ensures { IfOk result (λ read. read ≡ and_range self key low high) }
    {
        if self.ranges.has(&key) {
            return Ok(Err(RangeCause::Duplicate));
        }
        let Given {
            ranges,
            moments,
            step,
            questions,
        } = self;
        let ranges = ranges.with(key, low, high)?;
        Ok(Ok(Given {
            ranges,
            moments,
            step,
            questions,
        }))
    }

    /// The same with the first and the last moment.
    #[tactic(auto, unfolding(crate::specs::Lines::with_moments))]
    fn with_moments(self, first: Moment, last: Moment) -> Result<Given, RangeCause>
        ensures { result ≡ and_moments self first last }
    {
        if self.moments.is_some() {
            return Err(RangeCause::Duplicate);
        }
        let Given {
            ranges,
            moments: _,
            step,
            questions,
        } = self;
        Ok(Given {
            ranges,
            moments: Some((first, last)),
            step,
            questions,
        })
    }

    /// The same with a step.
    #[tactic(auto, unfolding(crate::specs::Lines::with_step))]
    fn with_step(self, step: Frac) -> Result<Given, RangeCause>
        ensures { result ≡ and_step self step }
    {
        if self.step.is_some() {
            return Err(RangeCause::Duplicate);
        }
        let Given {
            ranges,
            moments,
            step: _,
            questions,
        } = self;
        Ok(Given {
            ranges,
            moments,
            step: Some(step),
            questions,
        })
    }

    /// The same with a question.
    fn with_question(self, question: Question) -> Result<Result<Given, RangeCause>, NoMemory>
        ensures { IfOk result (λ read. read ≡ and_entry self (entry.Asks question)) }
    {
        let Given {
            ranges,
            moments,
            step,
            questions,
        } = self;
        let mut questions = questions;
        push_question(&mut questions, question)?;
        Ok(Ok(Given {
            ranges,
            moments,
            step,
            questions,
        }))
    }
}
