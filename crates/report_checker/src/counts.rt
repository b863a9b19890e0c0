//! The numbers of entries by their verdicts.
ghost use Rattle.std.specs.Prelude.{◌≡◌, IfSome};
ghost use Rattle.report_checker.specs.Accepted.{no_counts, with_verdict as and_verdict};

use verdict_meaning::Verdict;

/// The numbers of entries that hold, that are refuted and that are undecided.
#[derive(Clone, Copy, Debug, PartialEq, Eq)]
pub struct Counts {
    pub holds: u64,
    pub refuted: u64,
    pub undecided: u64,
}

impl Counts {
    /// No entries.
    pub(crate) fn none() -> Counts
        ensures { result ≡ no_counts }
    {
        Counts {
            holds: 0,
            refuted: 0,
            undecided: 0,
        }
    }

    /// These with one entry more, unless its count passes 2^64-1.
    pub(crate) fn with_verdict(&self, verdict: &Verdict) -> Option<Counts>
        ensures { IfSome result (λ counts. counts ≡ and_verdict self.now verdict.now) }
    {
        let mut counts = *self;
        match verdict {
            Verdict::Holds(_) => counts.holds = self.holds.checked_add(1)?,
            Verdict::Refuted(_) => counts.refuted = self.refuted.checked_add(1)?,
            Verdict::Undecided(_) => counts.undecided = self.undecided.checked_add(1)?,
        }
        Some(counts)
    }
}
