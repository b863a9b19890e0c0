//! Rows of a trace, at which a replay reads the rules.
ghost use Rattle.std.specs.Prelude.{◌≡◌, ◌↔◌, IsTrue};

use exact_fraction::frac::Frac;
use exact_fraction::moment::Moment;
use list_types::Items;

/// A row of a trace.
#[derive(Drop, PartialEq, Eq)]
pub struct Row {
    pub moment: Moment,
    /// The number of each input key, or None where it is missing.
    pub inputs: Items<Option<Frac>>,
}

impl Row {
    /// Whether the two are the same row.
    #[tactic(auto, using(crate::proofs::Equal::sames))]
    pub fn is_same(&self, other: &Row) -> bool
        ensures value { IsTrue result ↔ (self.now ≡ other.now) }
    {
        self == other
    }
}
