//! Keys with their ranges.
use exact_fraction::frac::Frac;
use interval_sets::Interval;
use rule_types::Key;

/// A key with its range, and the step in seconds within half of which times are compared.
#[derive(Clone, Copy)]
pub(crate) struct KeyRange {
    pub(crate) key: Key,
    pub(crate) range: Interval,
    pub(crate) step: Frac,
}
