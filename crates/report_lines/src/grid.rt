//! What the body of an entry is read against.
use crate::key_set::KeySet;
use list_types::Items;

/// The grid of a question: its keys, whether it has moments, and for each rule of the file whether
/// it is the question's.
#[derive(Drop)]
pub struct Grid {
    pub keys: KeySet,
    pub has_moments: bool,
    pub asked: Items<bool>,
}
