//! Grids.
use exact_fraction::frac::Frac;
use exact_fraction::moment::Moment;
use list_types::Items;
use rule_types::Key;

/// A key with the numbers at which its range is cut, in rising order. Its pieces are counted from 0
/// at the first cut: each even piece is a cut, and each odd one the gap between two cuts.
#[derive(Debug, Drop, PartialEq, Eq)]
pub struct KeyCuts {
    pub key: Key,
    pub cuts: Items<Frac>,
}

/// The pieces of moments: the first moment of each in rising order, and the last moment of all.
#[derive(Debug, Drop, PartialEq, Eq)]
pub struct MomentPieces {
    pub firsts: Items<Moment>,
    pub last: Moment,
}

/// A grid: an axis of pieces for each key, in key order, and one of moments behind them where it
/// has moments. Its cells are one piece of each axis.
#[derive(Debug, Drop, PartialEq, Eq)]
pub struct Grid {
    pub keys: Items<KeyCuts>,
    pub moments: Option<MomentPieces>,
}
