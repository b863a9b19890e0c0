//! Ranges.
use crate::question::Question;
use exact_fraction::frac::Frac;
use exact_fraction::moment::Moment;
use interval_sets::Interval;
use list_types::Items;
use rule_types::Key;

/// Ranges of states, and the questions that are asked of them.
#[derive(Debug, Drop, PartialEq, Eq)]
pub struct Ranges {
    /// The closed range of each key that has one, in key order. A SETTING without a range is from 0
    /// to 1.
    pub keys: Items<(Key, Interval)>,
    /// The first and the last moment.
    pub moments: Option<(Moment, Moment)>,
    pub start: Moment,
    /// The step in seconds.
    pub step: Frac,
    pub questions: Items<Question>,
}
