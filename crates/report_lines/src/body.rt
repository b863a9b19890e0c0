//! What the lines of an entry's body are read against.
use crate::grid::Grid;
use inp_text::Lines;
use object_index::ObjectIndex;
use rule_types::Rules;

/// The lines of the report, the rules and the objects, the grid of the question, and whether leaves
/// have facts: whether the report has version 2.
#[derive(Clone, Copy)]
pub struct Body<'a> {
    pub lines: &'a Lines,
    pub rules: &'a Rules,
    pub objects: &'a ObjectIndex,
    pub grid: &'a Grid,
    pub facts: bool,
}
