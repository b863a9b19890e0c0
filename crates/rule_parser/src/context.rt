//! What control lines are read against.
use curves_series::TableNames;
use object_index::ObjectIndex;

/// The objects and the names of the tables of a file.
#[derive(Clone, Copy)]
pub(crate) struct Context<'a> {
    pub(crate) objects: &'a ObjectIndex,
    pub(crate) tables: &'a TableNames,
}
