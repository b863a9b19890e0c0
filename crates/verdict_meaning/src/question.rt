//! Questions.
use exact_fraction::frac::Frac;

/// A question on the rules. A rule is given by its place in the file, from 0, and a link by its
/// number in link order.
#[derive(Clone, Copy, Debug, PartialEq, Eq)]
pub enum Question {
    /// Whether two rules of one rank can order different things of a link.
    Conflict(u32, u32, u32),
    /// Whether a rule is dead: no action of it is ever settled.
    Dead(u32),
    /// Whether a link that stands between two settings always stays there.
    Limit(u32, Frac, Frac),
}
