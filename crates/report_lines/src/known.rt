//! What questions speak of.
use object_index::ObjectIndex;
use range_lines::LinkSet;

/// The objects, the number of rules, and the links that some action acts on.
#[derive(Clone, Copy)]
pub struct Known<'a> {
    pub objects: &'a ObjectIndex,
    pub rules: usize,
    pub links: &'a LinkSet,
}
