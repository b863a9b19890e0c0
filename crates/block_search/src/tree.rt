//! Trees of cuts.
use list_types::{Boxed, Items};

/// How a block was cut until each part was shown to have no event.
#[cycle(tree)]
#[derive(Debug, Drop)]
pub enum Tree {
    /// A block that is shown, with its reason: numbers of rules with what is known of them. A block
    /// without cells has the empty reason.
    Leaf(Items<(u32, bool)>),
    /// The trees of the parts below, at and above a piece of an axis.
    Split(usize, u32, Boxed<Tree>, Boxed<Tree>, Boxed<Tree>),
    /// The trees of the parts before a piece of an axis of moments and from it on.
    Before(usize, u32, Boxed<Tree>, Boxed<Tree>),
}
